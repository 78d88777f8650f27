//! Why there is no answer.
ghost use Rattle.std.specs.Prelude.{◌≡◌};
ghost use Rattle.check_cmd.specs.declared.stop.CheckStop.TheVariants.{Memory as WantsMemory};

use px_base::Memory;

/// Why there is no answer.
#[derive(Clone, Copy, Debug, PartialEq, Eq)]
pub enum CheckStop {
    /// The file's source failed.
    Unread,
    Memory,
}

impl From<Memory> for CheckStop {
    ghost from_gives = { λ _ e. e ≡ WantsMemory };

    fn from(_: Memory) -> CheckStop {
        CheckStop::Memory
    }
}
