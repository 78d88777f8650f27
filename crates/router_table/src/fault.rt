//! Why a router is disabled.
ghost use Rattle.std.specs.Prelude.{◌≡◌};
ghost use Rattle.router_table.specs.declared.fault.Refusal.TheVariants.{Memory as WantsMemory};

use px_base::Memory;
use rule_eval::CompileFault;
use rule_lang::RuleFault;

/// Why a router is disabled: the first of these, in their order.
#[derive(Clone, Copy, Debug, PartialEq, Eq)]
pub enum RouterFault {
    /// It asks for TLS.
    Tls,
    /// An option asks for what is not supported.
    Unsupported,
    /// Its rule can't be read as a rule. Memory that runs out isn't told so.
    Rule(RuleFault),
    /// Its priority is over 2^63 - 1 - 1000.
    Priority,
    /// Its rule has more patterns than are left.
    TooManyPatterns,
    /// Its rule can't be compiled. Memory that runs out isn't told so.
    Compile(CompileFault),
    /// It names no service.
    NoService,
    /// Its service isn't declared.
    MissingService,
    /// Its service is disabled.
    BadService,
    /// One of its middlewares isn't declared.
    MissingMiddleware,
    /// One of its middlewares is disabled.
    BadMiddleware,
    /// Its middlewares are more than 64, those of chains counted.
    ChainTooLong,
}

// Why a router has no search: its fault, or that memory ran out.
#[derive(Clone, Copy, Debug, PartialEq, Eq)]
pub(crate) enum Refusal {
    Fault(RouterFault),
    Memory,
}

impl From<Memory> for Refusal {
    ghost from_gives = { λ _ e. e ≡ WantsMemory };

    fn from(_: Memory) -> Refusal {
        Refusal::Memory
    }
}
