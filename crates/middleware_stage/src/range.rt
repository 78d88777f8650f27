//! A network with the text that writes it.
ghost use Rattle.ip_net.specs.Texts.{WritesNet};

use ip_net::Net;
use px_base::Bytes;

// A network of addresses, and its text.
#[derive(Drop)]
pub(crate) struct Range {
    pub text: Bytes,
    pub net: Net,
    pub ghost written: { ∥ WritesNet text net.ip net.bits ∥₁ },
}
