//! A network with the text that writes it.
ghost use Rattle.ip_net.specs.Texts.{WritesNet};

use ip_net::Net;
use px_base::Bytes;

// A network and its text; the key is that of the rule, which `ClientIP` has no use for.
#[derive(Drop)]
pub(crate) struct Network {
    pub key: Bytes,
    pub text: Bytes,
    pub net: Net,
    pub ghost written: { ∥ WritesNet text net.ip net.bits ∥₁ },
}
