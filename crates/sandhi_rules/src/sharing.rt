ghost use denote.Param.Send.{IsSync};
ghost use Rattle.sandhi_rules.specs.contracts.rule_set.RuleSet as RuleSet;

/// A rule set may be shared among threads.
pub fn rule_sets_are_shared()
    ensures { IsSync RuleSet.the_row }
{}
