ghost use Rattle.std.specs.Prelude.{◌≡◌, ℕ, List, Ok};
ghost use Rattle.lexicon_definitions.specs.Lexicons.{RuleSet, IsRuleSet};
ghost use Rattle.lexicon_definitions.specs.Limits.{IsRuleSetWithinLimits};
ghost use Rattle.rule_file_definitions.specs.RuleFileReadings.{IsReadAs, FileResult};

/// Bytes are read in one way at most: as one rule set, or with one first fault.
pub fn a_rule_file_is_read_in_one_way()
    ensures { (bytes : List ℕ) (left right : FileResult) → IsReadAs bytes left → IsReadAs bytes right → left ≡ right }
{}

/// What is read is a rule set within the limits.
pub fn what_is_read_is_a_rule_set()
    ensures set { (bytes : List ℕ) (set : RuleSet) → IsReadAs bytes (Ok set) → IsRuleSet set }
    ensures limits { (bytes : List ℕ) (set : RuleSet) → IsReadAs bytes (Ok set) → IsRuleSetWithinLimits set }
{}
