ghost use Rattle.std.specs.Prelude.{◌+◌, ◌^◌, ◌<◌, length};

use super::progress::Progress;
use super::start::Start;

/// Parts that are listed at once: where each begins, the number of the first of them, and how far their workers have come.
#[derive(Drop)]
pub(crate) struct Block {
    pub starts: Vec<Start>,
    pub first: u64,
    pub progress: Progress,
    pub ghost numbers: { first + length starts.items < 2 ^ 64 },
}
