ghost use Rattle.std.specs.Prelude.{◌≡◌, ◌<◌, ◌≤◌, ◌^◌, ◌∷◌, ◌++◌, [], length, map, true, All, IfOk, IfErr, OnOk, Some, codes, slice_index_or, string_bytes};
ghost use Rattle.std.specs.List.{list_all};
ghost use Rattle.std.specs.List.Sorted.{IsStrictlySortedBy};
ghost use Rattle.std.specs.Str.{bytes_eq};
ghost use Rattle.text_definitions.specs.Letters.{IsLetter};
ghost use Rattle.lexicon_definitions.specs.declared.limits.TheConstants.{MOST_PHASES};
ghost use Rattle.lexicon_definitions.specs.Lexicons.{IsRuleSet, tree_of};
ghost use Rattle.lexicon_definitions.specs.Limits.{IsRuleSetWithinLimits};
ghost use Rattle.lexicon_definitions.specs.Tries.{IsRow};
ghost use Rattle.lexicon_text_definitions.specs.FileContents.{rules_told, compare_last as compare_last_of};
ghost use Rattle.lexicon_text_definitions.specs.FileLines.{fields_of, parts_of, may_follow as follows_first, End as FirstEnd, Phase as FirstPhase, Grammar as FirstGrammar, Plain as FirstPlain, Rule as FirstRule};
ghost use Rattle.lexicon_text_definitions.specs.FileSteps.{take_phase as take_phase_of, take_grammar as take_grammar_of, take_plain as take_plain_of};
ghost use Rattle.phase_automaton.specs.Automata.{Recognizes};
ghost use Rattle.trie_text_definitions.specs.Versions.{is_unlimited as is_unlimited_of};
ghost use Rattle.trie_text_definitions.specs.NodeLines.{compare_node_lines, node_line, node_lines};
ghost use Rattle.trie_text_definitions.specs.VersionSteps.{Phase, Grammar, Plain, End, Told as ToldValue, head_told, trie_told, with_front, may_follow, are_rooted, if_above, lacks_limited as lacks_limited_of, take_limited as take_limited_of, take_rule as take_rule_of, take_limited_rule as take_limited_rule_of, take_node as take_node_of, take_row as take_row_of, take_root as take_root_of, take_end as take_end_of, take_kind as take_kind_of, take_parts as take_parts_of, take_line as take_line_of};
ghost use Rattle.form_file.specs.Fields.{text_of_rest};
ghost use Rattle.lexicon_file.specs.Kinds.{kind_of, version_of};
ghost use Rattle.lexicon_file.specs.Rows.{row_read};
ghost use Rattle.lexicon_file.specs.Told.{InStep, IsAnswer, IsLineAnswer, IsNoEnd, HasRoom, kind_name, line_with, with_row};

use crate::children::read_children;
use crate::deltas::read_deltas;
use crate::kind::Kind;
use crate::numbers::read_node_number;
use crate::parts::three_parts;
use crate::rows::{are_children, deltas_rise, height_above, is_root, passes_limits};
use crate::take_error::TakeError;
use crate::version::Version;
use crate::{Contents, FileWhy};
use form_file::{Told, kind_and_rest, read_word, rule_parts, two_fields};
use form_tags::Delta;
use phase_sets::{all_phases, phases_after_told, phases_told};
use phoneme::{Letter, Memory};
use sandhi_rules::Rule;
use shared_trie::{Node, TrieSoFar};
use std::alloc::Global;
use std::cmp::Ordering;
use std::marker::Model;
use std::mem;
use trie_checks::{has_too_many_pairs, has_unused, has_wrong_delta};

/// What the lines of a file of version 2 or 3 told so far: the kind of the last line; what the lines of phases, grammar, plain pairs
/// and rules told, as in version 1; and the trie.
#[derive(Drop)]
pub(crate) struct TrieTold {
    last: Kind,
    front: Told,
    trie: TrieSoFar,
    /// The bytes of the last node's line; none before the first node.
    line: Vec<u8>,
    /// Room for the children of one node.
    children: Vec<(Letter, Node)>,
}

impl Model for TrieTold {
    ghost use Rattle.trie_text_definitions.specs.NodeLines.{node_lines};
    ghost use Rattle.trie_text_definitions.specs.VersionSteps.{Told as ToldValue};
    ghost use Rattle.lexicon_file.specs.Kinds.{kind_of};
    ghost use Rattle.lexicon_file.specs.Told.{IsKept};

    ghost Value = { ToldValue };

    ghost view = { λ t. record { last = kind_of t.last; front = t.front; rows = t.trie.rows; nodes = node_lines t.trie.rows; roots = t.trie.roots } };

    ghost invariant = { λ t. IsKept t.trie.rows t.line.items };
}

/// Whether this is the name of the phase whose turn it is; past the last phase no byte is one.
fn is_name(names: &[String], turn: usize, name: &[u8]) -> bool
    ensures { result ≡ bytes_eq name.now (slice_index_or (map string_bytes names.now) turn []) }
{
    match names.get(turn) {
        Some(known) => name == known.as_bytes(),
        None => name.is_empty(),
    }
}

/// Whether the rule is unlimited over so many phases.
fn is_unlimited(count: usize, rule: &Rule) -> bool
    requires { count ≤ MOST_PHASES }
    ensures { result ≡ is_unlimited_of count rule.now }
{
    let all = all_phases(count);
    rule.before == all && (rule.v.is_empty() || rule.after == all)
}

/// Whether all rules are unlimited over so many phases.
fn are_unlimited(count: usize, rules: &[Rule]) -> bool
    requires { count ≤ MOST_PHASES }
    ensures { result ≡ list_all (is_unlimited_of count) rules.now }
{
    for rule in rules {
        if !is_unlimited(count, rule) {
            return false;
        }
    }
    true
}

/// The reason that comes from how the last node compares with a new one, and from whether the deltas of this one rise.
fn above(order: Ordering, rising: bool) -> Result<(), TakeError>
    ensures { (told : ToldValue) → IsAnswer (if_above order rising told) result told }
{
    match order {
        Ordering::Less if rising => Ok(()),
        Ordering::Less | Ordering::Greater => Err(FileWhy::Falling.into()),
        Ordering::Equal => Err(FileWhy::Twice.into()),
    }
}

impl TrieTold {
    /// What the first line tells, which is nothing.
    pub(crate) fn new(alloc: Global) -> Result<Box<TrieTold>, Memory>
        ensures { IfOk result (λ told. told.value ≡ head_told) }
    {
        let told = TrieTold {
            last: Kind::Head,
            front: Told::after_head(alloc)?,
            trie: TrieSoFar::new(alloc),
            line: Vec::new(alloc),
            children: Vec::new(alloc),
        };
        let told = Box::new(alloc, told)?;
        Ok(told)
    }

    fn take_phase(&mut self, alloc: Global, text: &[u8]) -> Result<(), TakeError>
        requires follows { follows_first self.old.front.last FirstPhase ≡ true }
        requires fits { length text.now < 2 ^ 32 }
        ensures { IsAnswer (with_front self.old Phase (take_phase_of self.old.front (fields_of (Some text.now)))) result self.new }
    {
        self.front.take_phase(alloc, text)?;
        self.last = Kind::Phase;
        Ok(())
    }

    fn take_grammar(&mut self, alloc: Global, text: &[u8]) -> Result<(), TakeError>
        requires follows { follows_first self.old.front.last FirstGrammar ≡ true }
        requires fits { length text.now < 2 ^ 32 }
        ensures { IsLineAnswer (with_front self.old Grammar (take_grammar_of self.old.front (Some text.now))) result self.new }
    {
        self.front.take_grammar(alloc, text)?;
        self.last = Kind::Grammar;
        Ok(())
    }

    fn take_plain(&mut self, alloc: Global, text: &[u8]) -> Result<(), TakeError>
        requires follows { follows_first self.old.front.last FirstPlain ≡ true }
        requires fits { length text.now < 2 ^ 32 }
        ensures { IsAnswer (with_front self.old Plain (take_plain_of self.old.front (fields_of (Some text.now)))) result self.new }
    {
        self.front.take_plain(alloc, text)?;
        self.last = Kind::Plain;
        Ok(())
    }

    /// Takes a rule with its sets of phases.
    fn take_limited(&mut self, rule: Rule) -> Result<(), TakeError>
        requires { follows_first self.old.front.last FirstRule ≡ true }
        ensures { IsAnswer (take_limited_of self.old rule) result self.new }
    {
        self.front.take_limited(rule)?;
        self.last = Kind::Rule;
        Ok(())
    }

    /// Takes a rule's line of version 3, with what comes after its blank.
    fn take_limited_rule(&mut self, alloc: Global, text: &[u8]) -> Result<(), TakeError>
        requires follows { follows_first self.old.front.last FirstRule ≡ true }
        requires fits { length text.now < 2 ^ 32 }
        ensures { IsAnswer (take_limited_rule_of self.old (fields_of (Some text.now))) result self.new }
    {
        let Some((field, before, after)) = three_parts(text, b' ') else {
            return Err(FileWhy::Field.into());
        };
        let Some((u, v, w)) = rule_parts(field) else {
            return Err(FileWhy::Field.into());
        };
        let names = self.front.names();
        let Some(before) = phases_told(names, before) else {
            return Err(FileWhy::Field.into());
        };
        let Some(after) = phases_after_told(names, v.is_empty(), after) else {
            return Err(FileWhy::Field.into());
        };
        let u = read_word(alloc, u)?;
        let v = read_word(alloc, v)?;
        let w = read_word(alloc, w)?;
        self.take_limited(Rule {
            u,
            v,
            w,
            before,
            after,
        })
    }

    fn take_rule(&mut self, alloc: Global, version: Version, text: &[u8]) -> Result<(), TakeError>
        requires follows { follows_first self.old.front.last FirstRule ≡ true }
        requires fits { length text.now < 2 ^ 32 }
        ensures { IsAnswer (take_rule_of (version_of version) self.old (fields_of (Some text.now))) result self.new }
    {
        if version == Version::Third {
            return self.take_limited_rule(alloc, text);
        }
        self.front.take_rule(alloc, text)?;
        self.last = Kind::Rule;
        Ok(())
    }

    /// How the last node compares with one of this height and line; `Less` where there is no node yet.
    fn compare_last(&self, height: u32, line: &[u8]) -> Ordering
        ensures { result ≡ compare_last_of compare_node_lines self.now.nodes (record { height = height; bytes = line.now }) }
    {
        if self.trie.is_empty() {
            return Ordering::Less;
        }
        let last = Node::new(self.trie.len() - 1);
        self.trie
            .height(last)
            .cmp(&height)
            .then(self.line.as_slice().cmp(&line))
    }

    /// Adds a node, whose line is above those of the nodes before.
    fn add_row(
        &mut self,
        line: &[u8],
        deltas: Vec<Delta>,
        children: &[(Letter, Node)],
    ) -> Result<(), Memory>
        requires row { IsRow self.old.rows (length self.old.rows) (row_read deltas children.now) }
        requires rising { IsStrictlySortedBy compare_node_lines (node_lines (self.old.rows ++ row_read deltas children.now ∷ [])) }
        requires line { line.now ≡ node_line (row_read deltas children.now) }
        requires room { HasRoom self.old }
        ensures ok { OnOk result (self.new ≡ with_row self.old (row_read deltas children.now)) }
    {
        self.line.reserve(line.len())?;
        self.trie.push(deltas, children)?;
        self.line.clear();
        let Ok(()) = self.line.extend_from_slice(line) else {
            unreachable!();
        };
        self.last = Kind::Node;
        Ok(())
    }

    /// Takes the node with these deltas and children, whose line this is.
    fn take_row(
        &mut self,
        line: &[u8],
        deltas: Vec<Delta>,
        children: &[(Letter, Node)],
    ) -> Result<(), TakeError>
        requires line { line.now ≡ node_line (row_read deltas children.now) }
        requires letters { All (λ child. IsLetter child.0) children.now }
        requires room { HasRoom self.old }
        ensures { IsAnswer (take_row_of self.old line.now (row_read deltas children.now)) result self.new }
    {
        if !are_children(&self.trie, children) {
            return Err(FileWhy::Child.into());
        }
        let height = height_above(&self.trie, children);
        if passes_limits(deltas.as_slice(), height) {
            return Err(FileWhy::Limit.into());
        }
        above(
            self.compare_last(height, line),
            deltas_rise(deltas.as_slice()),
        )?;
        self.add_row(line, deltas, children)?;
        Ok(())
    }

    fn take_node(&mut self, alloc: Global, line: &[u8], text: &[u8]) -> Result<(), TakeError>
        requires line { line.now ≡ codes "node " ++ text.now }
        requires fits { length text.now < 2 ^ 32 }
        requires room { HasRoom self.old }
        ensures { IsAnswer (take_node_of self.old line.now (fields_of (Some text.now))) result self.new }
    {
        let Some((deltas, children)) = two_fields(text) else {
            return Err(FileWhy::Field.into());
        };
        let mut room = mem::replace(&mut self.children, Vec::new(alloc));
        let deltas = read_deltas(alloc, deltas)?;
        let spelled = read_children(children, &mut room)?;
        let Some(deltas) = deltas else {
            return Err(FileWhy::Spelling.into());
        };
        if !spelled {
            return Err(FileWhy::Spelling.into());
        }
        self.take_row(line, deltas, room.as_slice())?;
        self.children = room;
        Ok(())
    }

    fn take_root(&mut self, text: &[u8]) -> Result<(), TakeError>
        ensures { IsAnswer (take_root_of self.old (fields_of (Some text.now))) result self.new }
    {
        let Some((name, root)) = two_fields(text) else {
            return Err(FileWhy::Field.into());
        };
        if !is_name(self.front.names(), self.trie.roots(), name) {
            return Err(FileWhy::Field.into());
        }
        let Some(root) = read_node_number(root) else {
            return Err(FileWhy::Field.into());
        };
        if !is_root(&self.trie, Node::new(root)) {
            return Err(FileWhy::Child.into());
        }
        self.trie.push_root(Node::new(root))?;
        self.last = Kind::Root;
        Ok(())
    }

    /// Whether all rules are unlimited, in a version that has a limited one.
    fn lacks_limited(&self, version: Version) -> bool
        ensures { result ≡ lacks_limited_of (version_of version) self.now.front }
    {
        match version {
            Version::Second => false,
            Version::Third => are_unlimited(self.front.names().len(), self.front.rules()),
        }
    }

    fn take_end(
        &mut self,
        alloc: Global,
        version: Version,
        rest: Option<&[u8]>,
    ) -> Result<(), TakeError>
        ensures { IsAnswer (take_end_of (version_of version) self.old (text_of_rest rest.entry)) result self.new }
    {
        if rest.is_some() {
            return Err(FileWhy::Field.into());
        }
        let store = self.trie.store();
        if has_too_many_pairs(alloc, store)? {
            return Err(FileWhy::Limit.into());
        }
        if has_unused(alloc, store)? {
            return Err(FileWhy::Unused.into());
        }
        if has_wrong_delta(alloc, store)? {
            return Err(FileWhy::Delta.into());
        }
        if self.lacks_limited(version) {
            return Err(FileWhy::Unlimited.into());
        }
        self.last = Kind::End;
        Ok(())
    }

    /// Takes a line of a kind that may come next, with what comes after its blank.
    fn take_kind(
        &mut self,
        alloc: Global,
        version: Version,
        line: &[u8],
        kind: Kind,
        rest: Option<&[u8]>,
    ) -> Result<(), TakeError>
        requires follows { may_follow (are_rooted self.old) self.old.last (kind_of kind) ≡ true }
        requires step { InStep self.old.last self.old.front.last }
        requires line { line.now ≡ line_with (kind_name (kind_of kind)) (text_of_rest rest) }
        requires fits { length line.now < 2 ^ 32 }
        requires room { HasRoom self.old }
        ensures { IsLineAnswer (take_kind_of (version_of version) self.old line.now (kind_of kind) (text_of_rest rest.entry)) result self.new }
    {
        if kind == Kind::End {
            return self.take_end(alloc, version, rest);
        }
        let Some(text) = rest else {
            return Err(FileWhy::Field.into());
        };
        match kind {
            Kind::Phase => self.take_phase(alloc, text),
            Kind::Grammar => self.take_grammar(alloc, text),
            Kind::Plain => self.take_plain(alloc, text),
            Kind::Rule => self.take_rule(alloc, version, text),
            Kind::Node => self.take_node(alloc, line, text),
            Kind::Root => self.take_root(text),
            Kind::Head | Kind::End => Err(FileWhy::Order.into()),
        }
    }

    /// Whether each phase has a root.
    fn is_rooted(&self) -> bool
        ensures { result ≡ are_rooted self.now }
    {
        self.trie.roots() == self.front.names().len()
    }

    /// Takes a line after the first, which is UTF-8 and not after the end.
    fn take_parts(&mut self, alloc: Global, version: Version, line: &[u8]) -> Result<(), TakeError>
        requires step { InStep self.old.last self.old.front.last }
        requires fits { length line.now < 2 ^ 32 }
        requires room { HasRoom self.old }
        ensures { IsLineAnswer (take_parts_of (version_of version) self.old line.now (parts_of line.now)) result self.new }
    {
        let (name, rest) = kind_and_rest(line);
        let Some(kind) = Kind::named(name) else {
            return Err(FileWhy::Order.into());
        };
        if !kind.may_come_after(self.last, self.is_rooted()) {
            return Err(FileWhy::Order.into());
        }
        self.take_kind(alloc, version, line, kind, rest)
    }

    /// Takes the next line after the first, whether a line end comes after it or not.
    pub(crate) fn take_line(
        &mut self,
        alloc: Global,
        version: Version,
        line: &[u8],
        ended: bool,
    ) -> Result<(), TakeError>
        requires step { InStep self.old.last self.old.front.last }
        requires fits { length line.now < 2 ^ 32 }
        requires room { HasRoom self.old }
        ensures { IsLineAnswer (take_line_of (version_of version) self.old (record { bytes = line.now; ended = ended })) result self.new }
    {
        if self.last == Kind::End {
            return Err(FileWhy::Trailing.into());
        }
        if !ended {
            return Err(FileWhy::NoEnd.into());
        }
        if std::str::from_utf8(line).is_err() {
            return Err(FileWhy::NotUtf8.into());
        }
        self.take_parts(alloc, version, line)
    }

    /// The kind of the last line.
    fn last_kind(&self) -> Kind
        ensures { kind_of result ≡ self.now.last }
    {
        self.last
    }

    /// The contents of the file, whose last line was its end.
    fn into_contents(self, alloc: Global) -> Result<Contents, Memory>
        requires follows { follows_first self.front.last FirstEnd ≡ true }
        requires set { IsRuleSet (rules_told self.front) }
        requires limits { IsRuleSetWithinLimits (rules_told self.front) }
        ensures rules { IfOk result (λ contents. contents.rules ≡ rules_told self.front) }
        ensures store { IfOk result (λ contents. contents.store ≡ trie_told self) }
        ensures automaton { IfOk result (λ contents. Recognizes contents.automaton (tree_of (rules_told self.front))) }
        ensures phases { IfOk result (λ contents. contents.automaton.phases ≡ length contents.rules.names) }
    {
        let TrieTold { front, trie, .. } = self;
        let (rules, automaton) = front.into_rules(alloc)?;
        Ok(Contents {
            rules,
            automaton,
            store: trie.finish(),
        })
    }

    /// The contents of the file, where the last line was its end.
    pub(crate) fn finish(told: Box<TrieTold>, alloc: Global) -> Result<Contents, TakeError>
        requires step { InStep told.value.last told.value.front.last }
        requires set { told.value.last ≡ End → IsRuleSet (rules_told told.value.front) }
        requires limits { told.value.last ≡ End → IsRuleSetWithinLimits (rules_told told.value.front) }
        ensures ok { IfOk result (λ contents. (told.value.last ≡ End) × (contents.rules ≡ rules_told told.value.front) × (contents.store ≡ trie_told told.value)) }
        ensures automaton { IfOk result (λ contents. Recognizes contents.automaton (tree_of (rules_told told.value.front))) }
        ensures phases { IfOk result (λ contents. contents.automaton.phases ≡ length contents.rules.names) }
        ensures no_end { IfErr result (λ error. IsNoEnd error (told.value.last ≡ End)) }
    {
        let Kind::End = told.last_kind() else {
            return Err(FileWhy::NoEnd.into());
        };
        let contents = Box::into_inner(told).into_contents(alloc)?;
        Ok(contents)
    }
}
