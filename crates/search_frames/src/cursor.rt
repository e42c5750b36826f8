/// Where a search stands among its answers: before the first, at one, or past the last.
#[derive(Clone, Copy)]
pub enum Cursor {
    Before,
    At,
    Past,
}
