ghost use Rattle.std.specs.Prelude.{◌≡◌, ◌+◌, IfOk};
ghost use Rattle.rule_file.specs.declared.error.RuleError.TheVariants.{Fault as ErrorFault, Memory as ErrorMemory};

use phase_automaton::GrammarFault;
use phoneme::Memory;
use std::alloc::{AllocError, AllocFailed};
use std::fmt;
use thiserror::Error;

/// Why an entry of the rules is refused. The first reason in this order counts; of an entry that stands for several rules,
/// a reason counts where it applies to any of them.
#[derive(Clone, Copy, Debug)]
pub enum RuleWhy {
    Shape,
    Spelling,
    Class,
    Phase,
    Strict,
    Long,
    Twice,
    Limit,
}

impl RuleWhy {
    /// The reason in words.
    fn text(self) -> &'static str {
        match self {
            RuleWhy::Shape => "not the notation of a rule",
            RuleWhy::Spelling => "not SLP1",
            RuleWhy::Class => "no class has this name",
            RuleWhy::Phase => "not the phases before or after the rule",
            RuleWhy::Strict => "a rule that is not strict",
            RuleWhy::Long => "a part with too many letters",
            RuleWhy::Twice => "twice",
            RuleWhy::Limit => "too many rules, or too many different v with phases after them",
        }
    }
}

impl fmt::Display for RuleWhy {
    fn fmt<W: fmt::Write>(&self, f: &mut fmt::Formatter<W>) -> fmt::Result {
        f.write_str(self.text())
    }
}

impl std::error::Error for RuleWhy {}

/// The first fault of a rule file, in this order. A number is that of an entry in its array, counted from 1; classes are
/// counted by rising name. `Phase(0)` is a file that names no phase.
#[derive(Clone, Copy, Debug, Error)]
pub enum RuleFault {
    #[error("not a TOML document")]
    Toml,
    #[error("not the keys of a rule file")]
    Shape,
    #[error("phase {0}")]
    Phase(u32),
    #[error("class {0}")]
    Class(u32),
    #[error("plain {0}")]
    Plain(u32),
    #[error("rule {0}: {1}")]
    Rule(u32, RuleWhy),
    #[error(transparent)]
    Grammar(GrammarFault),
}

/// Why a rule file was not read.
#[derive(Clone, Copy, Debug, Error)]
pub enum RuleError {
    #[error(transparent)]
    Fault(RuleFault),
    #[error("out of memory")]
    Memory,
}

impl From<RuleFault> for RuleError {
    ghost from_gives = { λ fault e. e ≡ ErrorFault fault };

    fn from(fault: RuleFault) -> RuleError {
        RuleError::Fault(fault)
    }
}

impl From<Memory> for RuleError {
    ghost from_gives = { λ _ e. e ≡ ErrorMemory };

    fn from(_refused: Memory) -> RuleError {
        RuleError::Memory
    }
}

impl From<AllocError> for RuleError {
    ghost from_gives = { λ _ e. e ≡ ErrorMemory };

    fn from(_refused: AllocError) -> RuleError {
        RuleError::Memory
    }
}

impl<T: Drop> From<AllocFailed<T>> for RuleError {
    ghost from_gives = { λ _ e. e ≡ ErrorMemory };

    fn from(_refused: AllocFailed<T>) -> RuleError {
        RuleError::Memory
    }
}

/// The number of the entry at this place, which is counted from 0. Want of memory stands for a number that does not fit: so
/// many entries are more than a file within the limit of bytes has, and than memory holds.
pub(crate) fn number_of(place: usize) -> Result<u32, Memory>
    ensures { IfOk result (λ number. number ≡ place + 1) }
{
    if place < u32::MAX as usize {
        Ok(place as u32 + 1)
    } else {
        Err(Memory)
    }
}
