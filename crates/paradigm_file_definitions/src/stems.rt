ghost use Rattle.std.specs.Prelude.{◌≡◌, ℕ, List, Ok, All};
ghost use Rattle.morphology_definitions.specs.Inflection.{Class, Stem, IsInflectableStem};
ghost use Rattle.paradigm_file_definitions.specs.StemFiles.{stems_of};

/// Each stem that is read has a class, and a form for each row of it.
pub fn stems_that_are_read_are_inflectable()
    ensures { (classes : List Class) (bytes : List ℕ) (stems : List Stem)
        → stems_of classes bytes ≡ Ok stems
        → All (IsInflectableStem classes) stems }
{}
