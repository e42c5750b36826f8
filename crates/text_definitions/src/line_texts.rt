ghost use Rattle.std.specs.Prelude.{◌≡◌, List, ℕ, Ok};
ghost use Rattle.text_definitions.specs.Lines.{Line, IsLine};
ghost use Rattle.text_definitions.specs.Schemes.{Scheme};
ghost use Rattle.text_definitions.specs.LineTexts.{line_of_text};

/// What a scheme reads as a line is a line.
pub fn texts_spell_lines()
    ensures line { (scheme : Scheme) → (text : List ℕ) → (line : Line) → line_of_text scheme text ≡ Ok line → IsLine line }
{}
