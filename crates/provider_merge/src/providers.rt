//! The latest message of each provider.
ghost use Rattle.std.specs.Prelude.{◌≡◌, true};
ghost use Rattle.provider_merge.specs.Providers.{is_of};

use crate::message::Message;

/// The latest message of each provider, where it has sent one.
#[derive(Drop)]
pub struct Latest {
    pub file: Option<Message>,
    pub consul: Option<Message>,
    // Each message is its provider's.
    pub ghost files: { is_of 0 file ≡ true },
    pub ghost consuls: { is_of 1 consul ≡ true },
}
