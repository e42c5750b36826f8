ghost use Rattle.std.specs.Prelude.{◌≡◌, ℕ, List};
ghost use Rattle.std.specs.Cmp.{IsTotalOrder};
ghost use Rattle.lexicon_definitions.specs.Analyses.{Analysis as TextAnalysis};
ghost use Rattle.lexicon_definitions.specs.Lexicons.{IsAnalysis};
ghost use Rattle.lexicon_definitions.specs.Deltas.{Delta as TextDelta, IsDelta, analysis_by, compare_deltas};
ghost use Rattle.lexicon_definitions.specs.Tags.{IsTagText};
ghost use Rattle.text_definitions.specs.Words.{IsWord};
ghost use Rattle.form_tags.specs.declared.analysis.Analysis.{Analysis};
ghost use Rattle.form_tags.specs.declared.delta.Delta.{Delta};
ghost use Rattle.form_tags.specs.declared.tag.Tag.{Tag};
ghost use Rattle.form_tags.specs.Analyses.{text_analysis, text_delta};
ghost use Rattle.form_tags.specs.TagTexts.{tag_text};

/// The text of a tag is a tag's text, and two tags with one text are one. So what is printed is read back.
pub fn tags_are_told_by_texts()
    ensures text { (tag : Tag) → IsTagText (tag_text tag) }
    ensures once { (left right : Tag) → tag_text left ≡ tag_text right → left ≡ right }
{}

/// An analysis is one in the definitions too, and two analyses with one stem and one tag's text are one.
pub fn analyses_are_told_by_texts()
    ensures analysis { (analysis : Analysis)
        → IsWord analysis.stem
        → IsAnalysis (text_analysis analysis) }
    ensures once { (left right : Analysis) → text_analysis left ≡ text_analysis right → left ≡ right }
{}

/// A form and an analysis have one delta at most.
pub fn delta_is_one()
    ensures { (form : List ℕ) (analysis : TextAnalysis) (left right : TextDelta)
        → IsDelta form analysis left
        → IsDelta form analysis right
        → left ≡ right }
{}

/// Deltas are totally ordered by their cuts, then by what they append, then by their tags' texts.
pub fn deltas_are_ordered()
    ensures { IsTotalOrder compare_deltas }
{}

/// The analysis that `from_delta` gives of the delta that `to_delta` gave is the analysis.
pub fn delta_gives_back()
    ensures { (form : List ℕ) (analysis result : Analysis) (delta : Delta)
        → IsDelta form (text_analysis analysis) (text_delta delta)
        → text_analysis result ≡ analysis_by form (text_delta delta)
        → result ≡ analysis }
{}
