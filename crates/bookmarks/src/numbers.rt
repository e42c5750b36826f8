ghost use Rattle.std.specs.Prelude.{◌≡◌};
ghost use Rattle.std.specs.Str.{all_ascii_digits};
ghost use Rattle.bookmark_definitions.specs.BookmarkReadings.{is_number as is_number_of, number_up_to};
ghost use Rattle.bookmarks.specs.Answers.{IsRead};

use crate::BookmarkError;

/// Whether each byte is a digit.
fn are_digits(text: &[u8]) -> bool
    ensures { result ≡ all_ascii_digits text.now }
{
    text.iter().all(|byte| byte.is_ascii_digit())
}

/// Whether the text is a number in decimal: one digit or more, and no 0 before others.
fn is_number(text: &[u8]) -> bool
    ensures { result ≡ is_number_of text.now }
{
    match text {
        [] => false,
        [b'0', _, ..] => false,
        _ => are_digits(text),
    }
}

/// The number that the text writes in decimal, which is `most` at most.
pub(crate) fn read_number(text: &[u8], most: u64) -> Result<u64, BookmarkError>
    ensures { IsRead result (number_up_to most text.now) }
{
    if !is_number(text) {
        return Err(BookmarkError::Form);
    }
    let Ok(digits) = std::str::from_utf8(text) else {
        return Err(BookmarkError::Form);
    };
    let Ok(number) = digits.parse::<u64>() else {
        return Err(BookmarkError::Form);
    };
    if number > most {
        return Err(BookmarkError::Form);
    }
    Ok(number)
}

/// The same of a number that a `u32` holds.
pub(crate) fn read_small_number(text: &[u8], most: u32) -> Result<u32, BookmarkError>
    ensures { IsRead result (number_up_to most text.now) }
{
    let number = read_number(text, u64::from(most))?;
    Ok(number as u32)
}
