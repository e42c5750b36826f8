ghost use Rattle.std.specs.Prelude.{◌≡◌, ◌+◌, ◌++◌, ◌∷◌, ℕ, List, length, All, Ok, Err};
ghost use Rattle.lexicon_text_definitions.specs.FileLines.{Line, lines_of_bytes};
ghost use Rattle.conversion_definitions.specs.AnySchemes.{AnyScheme};
ghost use Rattle.conversion_definitions.specs.Conversions.{ConversionFault, converted_line, converted_text};
ghost use Rattle.conversion_laws.specs.Signs.{Sign, signs_of_line};

/// A line that is converted has the same words and marks in its new scheme, where the marks of Devanagari are taken as those of Latin
/// letters. So when it is brought back it has them too: each run of letters comes back as it was, and each gap up to dandas and
/// digits.
pub fn a_converted_line_says_the_same()
    ensures there { (from to : AnyScheme) (line result : List ℕ) → converted_line from to line ≡ Ok result
        → signs_of_line to result ≡ signs_of_line from line }
    ensures back { (from to : AnyScheme) (line result back : List ℕ) → converted_line from to line ≡ Ok result
        → converted_line to from result ≡ Ok back → signs_of_line from back ≡ signs_of_line from line }
{}

/// Where a text has a fault, all lines before the one that it names are converted, and this line has the fault.
pub fn the_fault_is_of_the_least_line()
    ensures { (from to : AnyScheme) (text : List ℕ) (fault : ConversionFault) → converted_text from to text ≡ Err fault
        → (before : List Line) × (line : Line) × (after : List Line) × (lines_of_bytes text ≡ before ++ line ∷ after)
        × (fault.line ≡ length before + 1) × (converted_line from to line.bytes ≡ Err fault.fault)
        × All (λ earlier. (result : List ℕ) × (converted_line from to earlier.bytes ≡ Ok result)) before }
{}
