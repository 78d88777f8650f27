//! What a provider says.
ghost use Rattle.std.specs.Prelude.{◌≤◌};

use dyn_config::Config;

/// A message of a provider: its whole configuration.
#[derive(Drop)]
pub struct Message {
    /// 0 is `file`, 1 is `consul`.
    pub provider: u32,
    /// Counts the provider's messages of one maker from 1 on. It changes nothing.
    pub number: u64,
    pub config: Config,
    pub ghost known: { provider ≤ 1 },
}
