/// A note that was written: its text, and how many segments it has.
#[derive(Drop)]
pub struct WrittenNote {
    pub text: Vec<u8>,
    pub segments: usize,
}
