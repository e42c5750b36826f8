ghost use Rattle.std.specs.Prelude.{◌≡◌};
ghost use Rattle.run_definitions.specs.Commands.{demo_number_of as is_demo_number_of};

use text_line::digits_up_to;

/// The number that one to eighteen digits write.
pub(crate) fn demo_number_of(text: &str) -> Option<u64>
    ensures { result ≡ is_demo_number_of text.now }
{
    digits_up_to(18, text.as_bytes())
}
