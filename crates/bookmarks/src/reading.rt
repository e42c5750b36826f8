ghost use Rattle.std.specs.Prelude.{◌≡◌, IfOk};
ghost use Rattle.bookmark_definitions.specs.BookmarkReadings.{bookmark_of_text};
ghost use Rattle.bookmarks.specs.Values.{bookmark_of, is_within_bounds as are_within_bounds};

use crate::choices::read_choices;
use crate::keys::read_keys;
use crate::lines::read_line;
use crate::numbers::read_number;
use crate::parts::five_parts;
use crate::{Bookmark, BookmarkError};
use segmentation_definitions::{LAST_ANSWER_NUMBER, MOST_CHOICES};
use std::alloc::Global;

/// Whether the choices and the keys are not too many, and there are no keys exactly where no answer was printed.
fn is_within_bounds(mark: &Bookmark) -> bool
    ensures { result ≡ are_within_bounds (bookmark_of mark.now) }
{
    mark.choices.len() <= MOST_CHOICES
        && mark.keys.len() <= 2 * mark.line.letters.len()
        && mark.keys.is_empty() == (mark.printed == 0)
}

/// The bookmark whose text these bytes are (own format). Refused with `Form` where they are the text of no bookmark.
pub fn read_bookmark(alloc: Global, text: &[u8]) -> Result<Bookmark, BookmarkError>
    ensures ok { IfOk result (λ mark. bookmark_of_text text.now ≡ Some (bookmark_of mark)) }
    ensures form { result ≡ Err BookmarkError.Form → bookmark_of_text text.now ≡ None }
{
    let Some((version, line, choices, printed, keys)) = five_parts(text, b';') else {
        return Err(BookmarkError::Form);
    };
    if version != b"1".as_slice() {
        return Err(BookmarkError::Form);
    }
    let line = read_line(alloc, line)?;
    let choices = read_choices(alloc, choices)?;
    let printed = read_number(printed, LAST_ANSWER_NUMBER)?;
    let keys = read_keys(alloc, keys)?;
    let mark = Bookmark {
        line,
        choices,
        printed,
        keys,
    };
    if is_within_bounds(&mark) {
        Ok(mark)
    } else {
        Err(BookmarkError::Form)
    }
}
