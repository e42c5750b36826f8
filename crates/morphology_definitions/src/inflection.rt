ghost use Rattle.std.specs.Prelude.{◌≡◌, ℕ, List, length};
ghost use Rattle.lexicon_definitions.specs.FormEntries.{Entry};
ghost use Rattle.morphology_definitions.specs.Inflection.{AreAllInflected, Class, IsInflected, Row, Stem, form_length};

/// A row and a stem have one entry at most, whose form has as many letters as the definition says.
pub fn inflected_once()
    ensures once { (row : Row) (stem : List ℕ) (left right : Entry)
        → IsInflected row stem left
        → IsInflected row stem right
        → left ≡ right }
    ensures length { (row : Row) (stem : List ℕ) (entry : Entry)
        → IsInflected row stem entry
        → length entry.letters ≡ form_length row stem }
{}

/// Stems and their classes have exactly one list of entries.
pub fn inflections_are_one_list()
    ensures once { (classes : List Class) (stems : List Stem) (left right : List Entry)
        → AreAllInflected classes stems left
        → AreAllInflected classes stems right
        → left ≡ right }
    ensures exists { (classes : List Class) (stems : List Stem)
        → (entries : List Entry) × AreAllInflected classes stems entries }
{}
