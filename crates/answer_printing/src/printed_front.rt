ghost use Rattle.std.specs.Prelude.{◌≡◌, ◌<◌, ◌⊎◌, ℕ, List, [], length, take, map};
ghost use Rattle.lexicon_definitions.specs.Lexicons.{RuleSet};
ghost use Rattle.answer_printing.specs.Fronts.{AreStarts, IsOpen, step_in};

use derivation::Step;
use std::alloc::Global;

/// A step that was printed: where its text begins, and the number of the rule before it; 0 stands for no rule.
#[derive(Clone, Copy)]
pub(crate) struct PrintedStep {
    pub step: Step,
    pub at: usize,
    pub before: u32,
}

/// The printed steps of an answer. The next answer mostly begins with many of them, so only the steps after these are printed anew. Its
/// memory may serve for the answers of another line.
#[derive(Drop)]
pub struct PrintedFront {
    pub(crate) steps: Vec<PrintedStep>,
    pub(crate) text: Vec<u8>,
}

impl PrintedFront {
    /// Nothing printed. Takes no memory.
    pub fn new(alloc: Global) -> PrintedFront
        ensures steps { result.steps.items ≡ [] }
        ensures text { result.text.items ≡ [] }
    {
        PrintedFront {
            steps: Vec::new(alloc),
            text: Vec::new(alloc),
        }
    }

    /// Drops what is printed, and keeps its memory.
    pub(crate) fn clear(&mut self)
        ensures steps { self.new.steps.items ≡ [] }
        ensures text { self.new.text.items ≡ [] }
    {
        self.steps.clear();
        self.text.clear();
    }

    /// How many steps at the beginning are printed already, without the last of either.
    fn count_same(&self, steps: &[Step]) -> usize
        requires { 0 < length steps.now }
        ensures same { map step_in (take result self.now.steps.items) ≡ take result steps.now }
        ensures fewer { result < length steps.now }
        ensures there { (result < length self.now.steps.items) ⊎ (length self.now.steps.items ≡ 0) }
    {
        let most = self.steps.len().min(steps.len());
        let mut same = 0;
        while same + 1 < most && self.steps[same].step == steps[same] {
            same += 1;
        }
        same
    }

    /// Keeps of the printed steps those with which these begin, and not the last of them. Answers the rule before the next step.
    pub(crate) fn keep(&mut self, steps: &[Step]) -> u32
        requires { 0 < length steps.now }
        ensures open { (rules : RuleSet) (letters : List ℕ) → AreStarts rules letters self.old.steps.items self.old.text.items
            → IsOpen rules letters self.new.steps.items result self.new.text.items }
        ensures same { map step_in self.new.steps.items ≡ take (length self.new.steps.items) steps.now }
        ensures fewer { length self.new.steps.items < length steps.now }
    {
        let same = self.count_same(steps);
        if same >= self.steps.as_slice().len() {
            self.steps.clear();
            self.text.clear();
            return 0;
        }
        let next = self.steps[same];
        self.steps.truncate(same);
        self.text.truncate(next.at);
        next.before
    }
}
