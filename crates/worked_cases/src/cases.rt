ghost use Rattle.std.specs.Prelude.{◌≡◌, ℕ, ◌<◌, ◌≤◌, true, false, List, [], ◌∷◌, codes};
ghost use Rattle.lexicon_definitions.specs.Grammars.{Opening, After};
ghost use Rattle.lexicon_definitions.specs.Lexicons.{IsLexicon};
ghost use Rattle.segmentation_definitions.specs.Derivations.{Derives};
ghost use Rattle.segmentation_definitions.specs.Overlaps.{IsOverlap};
ghost use Rattle.segmentation_definitions.specs.Items.{items_of, ranks_of};
ghost use Rattle.segmentation_definitions.specs.Answers.{IsAnswer};
ghost use Rattle.segmentation_definitions.specs.Listings.{IsListing, IsSummary, IsPage, BeforeFirst, AtAnswer};
ghost use Rattle.segmentation_definitions.specs.Configurations.{Configuration, Start, Plain, Lead, EndsAt};
ghost use Rattle.chain_definitions.specs.ChainFaults.{Barred, Meet};
ghost use Rattle.chain_definitions.specs.ChainReadings.{IsChainRead};
ghost use Rattle.worked_cases.specs.WorkedLexicons.{step, unbroken, broken_at, kept, rejected, word_ca, word_caa, word_iti, word_ceti, word_cet, word_uvaaca, word_cetyuvaaca, word_na, word_aa, word_gacchati, word_naagacchati, word_api, word_u, word_covapi, word_asti, word_aasti, word_naasti, word_deva, word_datta, word_devadatta, word_devas, word_devah, word_devogacchati, word_a, word_a_a, ceti_lexicon, uvaaca_lexicon, preverb_lexicon, overlap_lexicon, naasti_lexicon, devadatta_lexicon, devah_lexicon, twofold_lexicon, vowel_lexicon, final_lexicon, limited_lexicon, limited_before_lexicon};

/// The lexicons of these cases are lexicons.
pub fn the_worked_lexicons_are_lexicons()
    ensures ceti { IsLexicon ceti_lexicon }
    ensures uvaaca { IsLexicon uvaaca_lexicon }
    ensures preverb { IsLexicon preverb_lexicon }
    ensures overlap { IsLexicon overlap_lexicon }
    ensures naasti { IsLexicon naasti_lexicon }
    ensures devadatta { IsLexicon devadatta_lexicon }
    ensures devah { IsLexicon devah_lexicon }
    ensures twofold { IsLexicon twofold_lexicon }
    ensures vowel { IsLexicon vowel_lexicon }
    ensures final_rule { IsLexicon final_lexicon }
    ensures limited { IsLexicon limited_lexicon }
    ensures limited_before { IsLexicon limited_before_lexicon }
{}

/// `ceti` is `ca (a|i>e) iti` and nothing else, and `cet` is nothing.
pub fn ca_and_iti_are_ceti()
    ensures ceti { IsListing ceti_lexicon (unbroken word_ceti) [] ((step 0 word_ca 1 ∷ step 0 word_iti 0 ∷ []) ∷ []) }
    ensures cet { IsListing ceti_lexicon (unbroken word_cet) [] [] }
{}

/// `cetyuvAca` is `ca (a|i>e) iti (i|u>yu) uvAca`, where one rule changes the beginning of `iti` and the next its end.
pub fn a_form_may_change_at_both_ends()
    ensures { IsListing uvaaca_lexicon (unbroken word_cetyuvaaca) []
        ((step 0 word_ca 1 ∷ step 0 word_iti 2 ∷ step 0 word_uvaaca 0 ∷ []) ∷ []) }
{}

/// `nAgacCati` is `na (a|A>A) A + gacCati`, where the segment `A` takes no letter of the line: it is the lead that the rule
/// before it supplies.
pub fn a_segment_may_take_no_letter()
    ensures listing { IsListing preverb_lexicon (unbroken word_naagacchati) []
        ((step 0 word_na 1 ∷ step 1 word_aa 0 ∷ step 2 word_gacchati 0 ∷ []) ∷ []) }
    ensures items { items_of preverb_lexicon.rules (step 0 word_na 1 ∷ step 1 word_aa 0 ∷ step 2 word_gacchati 0 ∷ [])
        ≡ record { at = 0; lead = 0; phase = 0; form = word_na }
        ∷ record { at = 2; lead = 1; phase = 1; form = word_aa }
        ∷ record { at = 2; lead = 0; phase = 2; form = word_gacchati }
        ∷ [] }
    ensures places { ranks_of preverb_lexicon.rules (step 0 word_na 1 ∷ step 1 word_aa 0 ∷ step 2 word_gacchati 0 ∷ [])
        ≡ 1 ∷ 4 ∷ 5 ∷ [] }
{}

/// `nAsti` is `na (a|a>A) asti` and `na (a|A>A) Asti`; the smaller rule is first.
pub fn the_smaller_rule_is_first()
    ensures { IsListing naasti_lexicon (unbroken word_naasti) []
        ((step 0 word_na 1 ∷ step 0 word_asti 0 ∷ []) ∷ (step 0 word_na 2 ∷ step 0 word_aasti 0 ∷ []) ∷ []) }
{}

/// `u` overlaps itself between `a|u>o` and `u|a>va`, and so `ca (a|u>o) u (u|a>va) api` derives no word at all, and `covapi`
/// has no answer.
pub fn an_overlap_derives_no_word()
    ensures overlap { IsOverlap overlap_lexicon (record { phase = 0; form = word_u; before = 1; after = 2 }) }
    ensures none { (word : List ℕ) → Derives overlap_lexicon (step 0 word_ca 1 ∷ step 0 word_u 2 ∷ step 0 word_api 0 ∷ []) word → ⊥ }
    ensures covapi { IsListing overlap_lexicon (unbroken word_covapi) [] [] }
{}

/// `devadatta` is `devadatta` and then, since its first form takes fewer letters, `deva + datta`; with a blank after `deva`
/// it is the second alone.
pub fn a_blank_stands_at_a_seam()
    ensures unbroken { IsListing devadatta_lexicon (unbroken word_devadatta) []
        ((step 0 word_devadatta 0 ∷ []) ∷ (step 0 word_deva 0 ∷ step 0 word_datta 0 ∷ []) ∷ []) }
    ensures broken { IsListing devadatta_lexicon (broken_at 4 word_devadatta) []
        ((step 0 word_deva 0 ∷ step 0 word_datta 0 ∷ []) ∷ []) }
{}

/// `devogacCati` is `devaH (aH|g>og) gacCati`; a blank may stand before the letters `og` of the seam, between them and after
/// them, and nowhere else.
pub fn a_blank_may_stand_inside_a_seam()
    ensures at_the_seam { (blank : ℕ) → 3 ≤ blank → blank ≤ 5 → IsListing devah_lexicon (broken_at blank word_devogacchati) []
        ((step 0 word_devah 1 ∷ step 0 word_gacchati 0 ∷ []) ∷ []) }
    ensures before { (blank : ℕ) → blank < 3 → IsListing devah_lexicon (broken_at blank word_devogacchati) [] [] }
    ensures following { (blank : ℕ) → 5 < blank → IsListing devah_lexicon (broken_at blank word_devogacchati) [] [] }
{}

/// `devaH` is `devas (s|>H)`: a final rule changes the end of the last form. It need not: `devas` is `devas`.
pub fn a_final_rule_changes_the_end()
    ensures changed { IsListing final_lexicon (unbroken word_devah) [] ((step 0 word_devas 1 ∷ []) ∷ []) }
    ensures unchanged { IsListing final_lexicon (unbroken word_devas) [] ((step 0 word_devas 0 ∷ []) ∷ []) }
{}

/// `aa` is one form `aa` and two forms `a`; a reader who keeps, or rejects, a form `a` at the second letter leaves one of them.
pub fn choices_are_of_items()
    ensures free { IsListing vowel_lexicon (unbroken word_a_a) []
        ((step 0 word_a_a 0 ∷ []) ∷ (step 0 word_a 0 ∷ step 0 word_a 0 ∷ []) ∷ []) }
    ensures kept { IsListing vowel_lexicon (unbroken word_a_a) (kept 1 word_a ∷ []) ((step 0 word_a 0 ∷ step 0 word_a 0 ∷ []) ∷ []) }
    ensures rejected { IsListing vowel_lexicon (unbroken word_a_a) (rejected 1 word_a ∷ []) ((step 0 word_a_a 0 ∷ []) ∷ []) }
{}

/// Where the grammar reads an answer's phases in more than one way, the listing has it once.
pub fn an_answer_is_listed_once()
    ensures { IsListing twofold_lexicon (unbroken word_ceti) [] ((step 0 word_ca 1 ∷ step 0 word_iti 0 ∷ []) ∷ []) }
{}

/// A summary has each item of each answer once: by place, those with a lead before those without, and then by phase and form.
pub fn a_summary_has_each_item_once()
    ensures naasti { IsSummary naasti_lexicon (unbroken word_naasti) []
        (record { at = 0; lead = 0; phase = 0; form = word_na }
        ∷ record { at = 2; lead = 1; phase = 0; form = word_asti }
        ∷ record { at = 2; lead = 1; phase = 0; form = word_aasti }
        ∷ []) }
    ensures naagacchati { IsSummary preverb_lexicon (unbroken word_naagacchati) []
        (record { at = 0; lead = 0; phase = 0; form = word_na }
        ∷ record { at = 2; lead = 1; phase = 1; form = word_aa }
        ∷ record { at = 2; lead = 0; phase = 2; form = word_gacchati }
        ∷ []) }
    ensures ceti { IsSummary limited_lexicon (unbroken word_ceti) []
        (record { at = 0; lead = 0; phase = 0; form = word_ca }
        ∷ record { at = 0; lead = 0; phase = 0; form = word_caa }
        ∷ record { at = 2; lead = 1; phase = 1; form = word_iti }
        ∷ record { at = 2; lead = 1; phase = 2; form = word_iti }
        ∷ []) }
{}

/// Pages of one answer: the first answer of `nAsti` with more after it, then the second with no answer after it, then an empty page.
pub fn pages_follow_one_another()
    ensures first { IsPage naasti_lexicon (unbroken word_naasti) [] BeforeFirst 1
        ((step 0 word_na 1 ∷ step 0 word_asti 0 ∷ []) ∷ []) true }
    ensures second { IsPage naasti_lexicon (unbroken word_naasti) [] (AtAnswer (step 0 word_na 1 ∷ step 0 word_asti 0 ∷ [])) 1
        ((step 0 word_na 2 ∷ step 0 word_aasti 0 ∷ []) ∷ []) false }
    ensures third { IsPage naasti_lexicon (unbroken word_naasti) [] (AtAnswer (step 0 word_na 2 ∷ step 0 word_aasti 0 ∷ [])) 1 [] false }
{}

/// A rule leads from its phases to its phases alone, and not to or from the same form of another phase.
pub fn a_rule_is_limited_to_phases()
    ensures after { IsListing limited_lexicon (unbroken word_ceti) []
        ((step 0 word_ca 1 ∷ step 1 word_iti 0 ∷ []) ∷ (step 0 word_caa 2 ∷ step 2 word_iti 0 ∷ []) ∷ []) }
    ensures before { IsListing limited_before_lexicon (unbroken word_ceti) [] ((step 0 word_ca 1 ∷ step 1 word_iti 0 ∷ []) ∷ []) }
{}

/// A chain is barred where a rule does not allow the phase of the form before it or after it. This is told before it is asked whether
/// the rule's words fit the two forms.
pub fn a_rule_may_bar_a_chain()
    ensures before { IsChainRead limited_before_lexicon (codes "ca[q] (a|i>e) iti[q]") (Err (record { step = 1; why = Barred })) }
    ensures after { IsChainRead limited_lexicon (codes "ca[p] (a|i>e) iti[r]") (Err (record { step = 1; why = Barred })) }
    ensures barred_first { IsChainRead limited_lexicon (codes "cA[p] (a|i>e) iti[r]") (Err (record { step = 1; why = Barred })) }
    ensures meet { IsChainRead limited_lexicon (codes "cA[p] (a|i>e) iti[q]") (Err (record { step = 1; why = Meet })) }
    ensures allowed { IsChainRead limited_lexicon (codes "ca[p] (a|i>e) iti[q]") (Ok (step 0 word_ca 1 ∷ step 1 word_iti 0 ∷ [])) }
{}

/// No word is derived by no form at all, by a form that the phase does not have, by forms that meet unchanged over no plain
/// pair, by a rule that there is not, by an inner rule after the last form, or by a final rule after another.
pub fn these_steps_derive_no_word()
    ensures no_step { (word : List ℕ) → Derives ceti_lexicon [] word → ⊥ }
    ensures no_form { (word : List ℕ) → Derives preverb_lexicon (step 0 word_aa 0 ∷ []) word → ⊥ }
    ensures no_plain_pair { (word : List ℕ) → Derives ceti_lexicon (step 0 word_ca 0 ∷ step 0 word_iti 0 ∷ []) word → ⊥ }
    ensures no_rule { (word : List ℕ) → Derives ceti_lexicon (step 0 word_ca 2 ∷ step 0 word_iti 0 ∷ []) word → ⊥ }
    ensures inner_last { (word : List ℕ) → Derives ceti_lexicon (step 0 word_ca 1 ∷ []) word → ⊥ }
    ensures final_inside { (word : List ℕ) → Derives final_lexicon (step 0 word_devas 1 ∷ step 0 word_devas 0 ∷ []) word → ⊥ }
{}

/// `A` derives its own letters, but is no answer: the grammar wants a verb after a preverb.
pub fn phases_are_a_word_of_the_grammar()
    ensures derived { Derives preverb_lexicon (step 1 word_aa 0 ∷ []) word_aa }
    ensures no_answer { IsAnswer preverb_lexicon (unbroken word_aa) [] (step 1 word_aa 0 ∷ []) → ⊥ }
{}

/// Where no form stands yet, and after the first form of `deva + datta` and of `ca (a|i>e) iti`: so many letters are derived,
/// the next form is entered so, and the phases so far are read at these places of the grammar.
pub fn a_front_ends_at_a_configuration()
    ensures start { EndsAt ceti_lexicon.rules [] record { at = 0; entrance = Start; state = Opening } }
    ensures plain { EndsAt devadatta_lexicon.rules (step 0 word_deva 0 ∷ []) record { at = 4; entrance = Plain 1; state = After (1 ∷ []) } }
    ensures lead { EndsAt twofold_lexicon.rules (step 0 word_ca 1 ∷ [])
        record { at = 2; entrance = Lead (3 ∷ []) 1; state = After (1 ∷ 2 ∷ []) } }
{}

/// Rules with the same letters and other phases after them do not end at one configuration.
pub fn a_configuration_knows_the_phases()
    ensures { (configuration : Configuration) → EndsAt limited_lexicon.rules (step 0 word_ca 1 ∷ []) configuration
        → EndsAt limited_lexicon.rules (step 0 word_caa 2 ∷ []) configuration → ⊥ }
{}
