ghost use Rattle.std.specs.Prelude.{◌≡◌, IfOk, string_bytes};
ghost use Rattle.bookmark_definitions.specs.Bookmarks.{IsBookmark};
ghost use Rattle.bookmark_definitions.specs.BookmarkTexts.{text_of_bookmark};
ghost use Rattle.bookmarks.specs.Values.{bookmark_of};

use crate::Bookmark;
use crate::choices::print_choices;
use crate::keys::print_keys;
use crate::lines::print_line;
use phoneme::Memory;
use std::alloc::Global;

/// The text of a bookmark, `1;LINE;CHOICES;PRINTED;KEYS` (own format). Refused only for want of memory.
pub fn print_bookmark(alloc: Global, mark: &Bookmark) -> Result<String, Memory>
    requires { IsBookmark (bookmark_of mark.now) }
    ensures ok { IfOk result (λ text. string_bytes text ≡ text_of_bookmark (bookmark_of mark.now)) }
{
    let line = print_line(alloc, &mark.line)?;
    let choices = print_choices(alloc, mark.choices.as_slice())?;
    let keys = print_keys(alloc, mark.keys.as_slice())?;
    Ok(format!(in alloc; "1;{line};{choices};{};{keys}", mark.printed)?)
}
