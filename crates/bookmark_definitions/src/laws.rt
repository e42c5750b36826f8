ghost use Rattle.std.specs.Prelude.{◌≡◌, ◌<◌, ℕ, List, length, Some};
ghost use Rattle.bookmark_definitions.specs.Bookmarks.{Bookmark, IsBookmark};
ghost use Rattle.bookmark_definitions.specs.BookmarkTexts.{text_of_bookmark};
ghost use Rattle.bookmark_definitions.specs.BookmarkReadings.{bookmark_of_text};

/// What is read as a bookmark is one within the bounds, and the text that was read is its text.
pub fn what_is_read_is_a_bookmark()
    ensures text { (text : List ℕ) (mark : Bookmark) → bookmark_of_text text ≡ Some mark → text ≡ text_of_bookmark mark }
    ensures bounds { (text : List ℕ) (mark : Bookmark) → bookmark_of_text text ≡ Some mark → IsBookmark mark }
{}

/// The text of a bookmark within the bounds is read as this bookmark.
pub fn a_bookmark_is_read_back()
    ensures { (mark : Bookmark) → IsBookmark mark → bookmark_of_text (text_of_bookmark mark) ≡ Some mark }
{}

/// The text of a bookmark within the bounds has fewer than 65,000 bytes, so the line of a session that resumes it is not too long.
pub fn a_bookmark_is_short()
    ensures { (mark : Bookmark) → IsBookmark mark → length (text_of_bookmark mark) < 65000 }
{}
