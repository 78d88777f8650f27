//! The words of `route`.
ghost use Rattle.std.specs.Prelude.{◌≡◌, ◌≢◌, ◌↔◌, ◌∷◌, [], ℕ, List, IsTrue, MatchResult, codes};
ghost use Rattle.ip_net.specs.declared.ip.Ip.{Ip as Address};
ghost use Rattle.ip_net.specs.Texts.{Writes};
ghost use Rattle.command_words.specs.declared.command.RoutePlan.{RoutePlan as Plan};
ghost use Rattle.command_words.specs.Values.{values_of, Chosen};
ghost use Rattle.command_words.specs.Commands.{IsRoute, AreOptions, is_route_option as is_option_of_route};

use crate::command::{RoutePlan, WordFault};
use crate::lookup::value_of;
use crate::sorting::{Setting, Sorted};
use ip_net::{Ip, read_ip};
use px_base::Bytes;
use std::alloc::Global;

/// The address 127.0.0.1.
const LOOPBACK: Ip = Ip::V4(0x7f00_0001);

pub(crate) fn read_route(alloc: Global, sorted: &Sorted) -> Result<RoutePlan, WordFault>
    ensures { MatchResult result
        (IsRoute sorted.now)
        (λ fault. fault ≡ WordFault.NotACommand → (plan : Plan) → ¬ (IsRoute sorted.now plan)) }
{
    let settings = sorted.settings.as_slice();
    if !are_route_options(settings) {
        return Err(WordFault::NotACommand);
    }
    let config = config_of(sorted.others.as_slice())?;
    let entry = entry_of(settings)?;
    let peer = peer_of(settings)?;
    Ok(RoutePlan {
        config: Bytes::from_slice(alloc, config)?,
        entry: Bytes::from_slice(alloc, entry)?,
        peer,
    })
}

fn are_route_options(settings: &[Setting]) -> bool
    ensures { IsTrue result ↔ AreOptions is_option_of_route settings.now }
{
    settings.iter().all(|s| is_route_option(s.name.as_slice()))
}

fn is_route_option(name: &[u8]) -> bool
    ensures { result ≡ is_option_of_route name.now }
{
    name == b"entry".as_slice() || name == b"peer".as_slice()
}

/// The path of the configuration file, which is the only other word.
pub(crate) fn config_of(others: &[Bytes]) -> Result<&[u8], WordFault>
    ensures { MatchResult result
        (λ config. others.now ≡ config.now ∷ [])
        (λ fault. (fault ≡ WordFault.NotACommand) × ((config : List ℕ) → others.now ≢ config ∷ [])) }
{
    match others {
        [config] => Ok(config.as_slice()),
        _ => Err(WordFault::NotACommand),
    }
}

fn entry_of(settings: &[Setting]) -> Result<&[u8], WordFault>
    ensures { MatchResult result
        (λ entry. Chosen (values_of (codes "entry") settings.now) (codes "web") (λ value e. e ≡ value) entry.now)
        (λ fault. (entry : List ℕ) → ¬ (Chosen (values_of (codes "entry") settings.now) (codes "web") (λ value e. e ≡ value) entry)) }
{
    match value_of(settings, b"entry")? {
        Some(entry) => Ok(entry),
        None => Ok(b"web"),
    }
}

fn peer_of(settings: &[Setting]) -> Result<Ip, WordFault>
    ensures { MatchResult result
        (Chosen (values_of (codes "peer") settings.now) (Ip.V4 2130706433) Writes)
        (λ fault. (peer : Address) → ¬ (Chosen (values_of (codes "peer") settings.now) (Ip.V4 2130706433) Writes peer)) }
{
    match value_of(settings, b"peer")? {
        Some(text) => match read_ip(text) {
            Some(peer) => Ok(peer),
            None => Err(WordFault::NotACommand),
        },
        None => Ok(LOOPBACK),
    }
}
