ghost use denote.Param.Send.{IsSync};
ghost use denote.Ref.{NamedLft};
ghost use Rattle.answer_printing.specs.contracts.rule_texts.RuleTexts as RuleTexts;

/// The texts of rules may be shared among threads.
pub fn rule_texts_are_shared()
    ensures { (κ : NamedLft) → IsSync (RuleTexts.the_row κ) }
{}
