/// Whether a session goes on after a reply, or is over.
#[derive(Clone, Copy)]
pub(crate) enum After {
    Open,
    Over,
}
