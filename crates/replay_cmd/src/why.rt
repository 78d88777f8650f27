//! Why a script is refused.
ghost use Rattle.std.specs.Prelude.{◌≡◌, IfOk};
ghost use Rattle.replay_cmd.specs.Refusals.{why_text, refusal_text, IsFailureOf};
ghost use Rattle.replay_cmd.specs.declared.why.Failure.TheVariants.{Memory as WantsMemory};

use conn_machine::StateName;
use px_base::{Memory, print_decimal};
use std::alloc::Global;
use system_core::{Kind, Refused};

/// Why a line of a script is refused.
#[derive(Clone, Copy, Debug, PartialEq, Eq)]
pub(crate) enum Why {
    /// It is no line.
    Grammar,
    /// The configuration has a fault.
    Config,
    /// It is of a kind that isn't served yet.
    Later,
    NoSuchLink,
    /// The event may not come in this state.
    NotEnabled(Kind, StateName),
}

/// Why a script isn't told to its end.
#[derive(Clone, Copy, Debug, PartialEq, Eq)]
pub(crate) enum Failure {
    Refused(Why),
    Memory,
}

impl From<Memory> for Failure {
    ghost from_gives = { λ _ e. e ≡ WantsMemory };

    fn from(_: Memory) -> Failure {
        Failure::Memory
    }
}

/// Why an event was refused.
pub(crate) fn failure_of(refused: Refused) -> Failure
    ensures { IsFailureOf refused result }
{
    match refused {
        Refused::NoSuchLink { link: _ } => Failure::Refused(Why::NoSuchLink),
        Refused::NotEnabled { kind, state } => Failure::Refused(Why::NotEnabled(kind, state)),
        Refused::Memory => Failure::Memory,
    }
}

/// The line of a refusal.
pub(crate) fn refusal_of(alloc: Global, number: u64, why: Why) -> Result<Vec<u8>, Memory>
    ensures { IfOk result (λ text. text.items ≡ refusal_text number why) }
{
    let why = why_of(alloc, why)?;
    let mut text = Vec::from_slice(alloc, b"script ")?;
    print_decimal(number, &mut text)?;
    text.extend_from_slice(b" ")?;
    text.extend_from_slice(why.as_slice())?;
    text.extend_from_slice(b"\n")?;
    Ok(text)
}

fn why_of(alloc: Global, why: Why) -> Result<Vec<u8>, Memory>
    ensures { IfOk result (λ text. text.items ≡ why_text why) }
{
    match why {
        Why::Grammar => Vec::from_slice(alloc, b"Grammar"),
        Why::Config => Vec::from_slice(alloc, b"Config"),
        Why::Later => Vec::from_slice(alloc, b"Later"),
        Why::NoSuchLink => Vec::from_slice(alloc, b"NoSuchLink"),
        Why::NotEnabled(kind, state) => state_of(alloc, kind, state),
    }
}

fn state_of(alloc: Global, kind: Kind, state: StateName) -> Result<Vec<u8>, Memory>
    ensures { IfOk result (λ text. text.items ≡ why_text (Why.NotEnabled kind state)) }
{
    let mut text = Vec::from_slice(alloc, b"NotEnabled ")?;
    text.extend_from_slice(kind.word())?;
    text.extend_from_slice(b" ")?;
    text.extend_from_slice(state.word())?;
    Ok(text)
}
