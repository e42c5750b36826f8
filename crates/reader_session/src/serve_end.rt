/// How serving a session ended.
#[derive(Clone, Copy)]
pub enum ServeEnd {
    /// The input was read to a `quit` line or to its end.
    Done,
    /// Memory was wanting.
    Memory,
    /// The source failed, and counted it.
    ReadFault,
    /// The sink failed, and counted it.
    WriteFault,
    /// The input has too many bytes, and no complete line within the first of them ends the session.
    TooMuch,
}
