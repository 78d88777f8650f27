//! Why there is no configuration.
ghost use Rattle.std.specs.Prelude.{◌≡◌};
ghost use Rattle.config_input.specs.declared.fault.NoConfig.TheVariants.{Memory as WantsMemory};

use px_base::{Answer, Memory};

/// Why there is no configuration.
#[derive(Debug, Drop)]
pub enum NoConfig {
    /// Its source failed.
    Failed,
    /// There is too much of it, or it is none: this is what the command answers.
    Refused(Answer),
    Memory,
}

impl From<Memory> for NoConfig {
    ghost from_gives = { λ _ e. e ≡ WantsMemory };

    fn from(_: Memory) -> NoConfig {
        NoConfig::Memory
    }
}
