ghost use Rattle.std.specs.Prelude.{◌≡◌, ℕ, None, List, All};
ghost use Rattle.lexicon_definitions.specs.Grammars.{Grammar};
ghost use Rattle.lexicon_definitions.specs.GrammarTexts.{tokens_of, grammar_of};
ghost use Rattle.lexicon_definitions.specs.GrammarFaults.{syntax_fault, names_from};
ghost use Rattle.lexicon_definitions.specs.GrammarSyntax.{IsExpression};
ghost use Rattle.lexicon_definitions.specs.Lexicons.{IsPhaseName};

/// A text without a syntax fault is an expression, which is written as its tree is, and each name in it is one that a phase
/// may have.
pub fn grammar_text_spells_its_tree()
    ensures tree { (names : List (List ℕ)) (text : List ℕ) → syntax_fault text ≡ None
        → IsExpression names (grammar_of names text) (tokens_of text) }
    ensures names { (text : List ℕ) → syntax_fault text ≡ None → All (λ name. IsPhaseName name.bytes) (names_from 0 text) }
{}

/// A text that is written as some tree is, and in which each name is one that a phase may have, has no syntax fault. So a
/// text has no syntax fault exactly where it spells an expression with such names.
pub fn spelled_texts_have_no_fault()
    ensures { (names : List (List ℕ)) (tree : Grammar) (text : List ℕ) → IsExpression names tree (tokens_of text)
        → All (λ name. IsPhaseName name.bytes) (names_from 0 text) → syntax_fault text ≡ None }
{}
