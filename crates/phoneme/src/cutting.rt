ghost use Rattle.std.specs.Prelude.{◌≢◌, ◌≡◌, ◌∷◌, ◌++◌, All, MatchOption};

use memchr::memchr;

/// The bytes before the first mark in the text, and those after it. `None` where the mark does not stand in the text.
pub fn cut_at(text: &[u8], mark: u8) -> Option<(&[u8], &[u8])>
    ensures { MatchOption result (All (λ byte. byte ≢ mark) text.now)
        (λ parts. (text.now ≡ parts.0.now ++ mark ∷ parts.1.now) × All (λ byte. byte ≢ mark) parts.0.now) }
{
    let at = memchr(mark, text)?;
    Some((&text[..at], &text[at + 1..]))
}
