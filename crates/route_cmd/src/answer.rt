//! Why there is no answer.
ghost use Rattle.std.specs.Prelude.{◌≡◌};
ghost use Rattle.route_cmd.specs.declared.answer.Stop.TheVariants.{Memory as WantsMemory};

use px_base::Memory;

/// Why there is no answer.
#[derive(Clone, Copy, Debug, PartialEq, Eq)]
pub enum Stop {
    /// The file's source failed.
    File,
    /// The input's source failed.
    Input,
    Memory,
}

impl From<Memory> for Stop {
    ghost from_gives = { λ _ e. e ≡ WantsMemory };

    fn from(_: Memory) -> Stop {
        Stop::Memory
    }
}
