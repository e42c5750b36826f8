ghost use Rattle.std.specs.Prelude.{◌≤◌, length};
ghost use Rattle.run_definitions.specs.declared.limits.TheConstants.{MOST_WORD_BYTES};

/// A word of the command line, and which of the words it is, counted from 0. It may name a file.
#[derive(Clone, Copy)]
pub struct PlacedWord<'a> {
    pub place: u32,
    pub name: &'a str,
    ghost within_limit: { length name.now ≤ MOST_WORD_BYTES },
}
