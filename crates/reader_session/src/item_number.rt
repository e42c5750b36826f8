ghost use Rattle.std.specs.Prelude.{◌≡◌};
ghost use Rattle.session_definitions.specs.Requests as definitions;
ghost use Rattle.reader_session.specs.Meant.{IsFromOne};

use text_line::digits_up_to;

/// The number of an item, counted from 1, as one to nine digits write it.
pub(crate) fn item_number_of(text: &[u8]) -> Option<u32>
    ensures value { result ≡ definitions.item_number_of text.now }
    ensures from_one { IsFromOne result }
{
    let number = digits_up_to(9, text)?;
    if number >= 1 {
        Some(number as u32)
    } else {
        None
    }
}
