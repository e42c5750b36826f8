ghost use Rattle.std.specs.Prelude.{◌↔◌, List, Contains};
ghost use Rattle.std.specs.Cmp.{IsTotalOrder};
ghost use Rattle.std.specs.List.Sorted.{IsStrictlySortedBy};
ghost use Rattle.lexicon_definitions.specs.Analyses.{compare_analyses};
ghost use Rattle.lexicon_definitions.specs.Leads.{Lead, compare_leads, leads_of, IsLeadOf};
ghost use Rattle.lexicon_definitions.specs.Rules.{Rule};

/// Analyses are totally ordered by their stems, and then by their tags' texts.
pub fn analyses_are_ordered()
    ensures { IsTotalOrder compare_analyses }
{}

/// The leads of a list of rules rise, and they are just those of its inner rules.
pub fn leads_are_those_of_the_inner_rules()
    ensures rising { (rules : List Rule) → IsStrictlySortedBy compare_leads (leads_of rules) }
    ensures members { (rules : List Rule) (lead : Lead) → Contains (leads_of rules) lead ↔ IsLeadOf rules lead }
{}
