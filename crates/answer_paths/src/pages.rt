ghost use Rattle.std.specs.Prelude.{◌≡◌, ◌↔◌, ℕ, ◌≤◌, Bool, true, false, IsTrue, List, [], ◌∷◌, ◌++◌, length};
ghost use Rattle.text_definitions.specs.Lines.{Line};
ghost use Rattle.lexicon_definitions.specs.Lexicons.{Lexicon};
ghost use Rattle.segmentation_definitions.specs.Derivations.{Step};
ghost use Rattle.segmentation_definitions.specs.Items.{Choice};
ghost use Rattle.segmentation_definitions.specs.Answers.{IsAnswer};
ghost use Rattle.segmentation_definitions.specs.Listings.{Cursor, cursor_after, IsAbove, IsNext, IsPage};
ghost use Rattle.answer_paths.specs.Pages.{AreFirstAnswers};

/// A page is put together answer by answer. The empty list is the first 0 answers after a cursor; first answers and the next
/// answer after them are first answers too. They are a page as soon as they are as many as it asks for, where `more` says
/// whether an answer is left; they are one too where no answer is left.
pub fn pages_are_made_of_next_answers()
    ensures none { (lexicon : Lexicon) (line : Line) (choices : List Choice) (cursor : Cursor)
        → AreFirstAnswers lexicon line choices cursor [] }
    ensures next { (lexicon : Lexicon) (line : Line) (choices : List Choice) (cursor : Cursor) (answers : List (List Step)) (next : List Step)
        → AreFirstAnswers lexicon line choices cursor answers → IsNext lexicon line choices (cursor_after cursor answers) next
        → AreFirstAnswers lexicon line choices cursor (answers ++ next ∷ [])
        × (cursor_after cursor (answers ++ next ∷ []) ≡ cursor_after (cursor_after cursor answers) (next ∷ [])) }
    ensures full { (lexicon : Lexicon) (line : Line) (choices : List Choice) (cursor : Cursor) (answers : List (List Step)) (more : Bool)
        → AreFirstAnswers lexicon line choices cursor answers
        → (IsTrue more ↔ ((steps : List Step) × IsAnswer lexicon line choices steps × IsAbove lexicon.rules (cursor_after cursor answers) steps))
        → IsPage lexicon line choices cursor (length answers) answers more }
    ensures ended { (lexicon : Lexicon) (line : Line) (choices : List Choice) (cursor : Cursor) (answers : List (List Step)) (count : ℕ)
        → AreFirstAnswers lexicon line choices cursor answers → length answers ≤ count
        → ((steps : List Step) → IsAnswer lexicon line choices steps → IsAbove lexicon.rules (cursor_after cursor answers) steps → ⊥)
        → IsPage lexicon line choices cursor count answers false }
{}
