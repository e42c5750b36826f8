ghost use Rattle.std.specs.Prelude.{◌≡◌, ◌<◌, ◌≤◌, ◌^◌, ◌&&◌, nat_le, if◌then◌else◌, Some, None, IfSome};
ghost use Rattle.std.specs.Str.{all_ascii_digits};
ghost use Rattle.std.specs.Str.Parse.{digits_value};
ghost use Rattle.text_definitions.specs.TypedNumbers as typed;

/// Whether each byte is a digit.
fn are_digits(text: &[u8]) -> bool
    ensures { result ≡ all_ascii_digits text.now }
{
    text.iter().all(|byte| byte.is_ascii_digit())
}

/// Whether the text is one digit or more, and not too many; it may begin with 0.
fn are_digits_up_to(most: usize, text: &[u8]) -> bool
    ensures { result ≡ typed.are_digits_up_to most text.now }
{
    !text.is_empty() && text.len() <= most && are_digits(text)
}

/// The number that the text writes in decimal, with one digit up to `most` digits; it may begin with 0. `None` where the text is not such.
pub fn digits_up_to(most: usize, text: &[u8]) -> Option<u64>
    requires { most ≤ 19 }
    ensures value { result ≡ (if typed.are_digits_up_to most text.now then Some (digits_value 10 text.now) else None) }
    ensures small { IfSome result (λ number. number < 10 ^ most) }
{
    if !are_digits_up_to(most, text) {
        return None;
    }
    let Ok(digits) = std::str::from_utf8(text) else {
        return None;
    };
    let Ok(number) = digits.parse::<u64>() else {
        return None;
    };
    Some(number)
}

/// The number from 1 to `most` that at most so many digits write in decimal.
pub fn count_up_to(digits: usize, most: u32, text: &[u8]) -> Option<u32>
    requires { digits ≤ 19 }
    ensures value { result
        ≡ (if typed.are_digits_up_to digits text.now && nat_le 1 (digits_value 10 text.now) && nat_le (digits_value 10 text.now) most
        then Some (digits_value 10 text.now) else None) }
    ensures from_one { result ≡ Some 0 → ⊥ }
{
    let count = digits_up_to(digits, text)?;
    if count >= 1 && count <= u64::from(most) {
        Some(count as u32)
    } else {
        None
    }
}
