ghost use Rattle.std.specs.Prelude.{◌≡◌};
ghost use Rattle.derivation.specs.Steps.{keys_meant};
ghost use Rattle.search_split.specs.Starts.{front_from};

use derivation::Key;

/// Where a part begins that is to be listed: the keys of the first answer of its front. A worker goes there by them.
#[derive(Drop)]
pub(crate) struct Start {
    pub keys: Vec<Key>,
}

impl Start {
    /// The front: the first keys, as many as `depth`, or all of them where they are fewer.
    pub fn front(&self, depth: u32) -> &[Key]
        ensures { keys_meant result.now ≡ front_from depth self.now }
    {
        let count = self.keys.len().min(depth as usize);
        &self.keys.as_slice()[..count]
    }
}

/// Where the next parts begin, in the order of their answers, and whether a front is left after them.
#[derive(Drop)]
pub(crate) struct Starts {
    pub list: Vec<Start>,
    pub more: bool,
}
