//! Where `serve` listens: `<name>=<ip>:<port>`.
ghost use Rattle.std.specs.Prelude.{◌≡◌, ◌↔◌, ℕ, List, IsTrue, MatchOption, MatchResult, map, true};
ghost use Rattle.ip_net.specs.declared.ip.Ip.{Ip as Address};
ghost use Rattle.link_world.specs.declared.plan.Listen.{Listen as ListenPlan};
ghost use Rattle.command_words.specs.Commands.{IsEntry, IsListenAt, IsListen, AreListens, are_apart as are_names_apart, is_among as is_name_among, entry_of};

use crate::command::WordFault;
use crate::cuts::cut_at;
use crate::numbers::address;
use ip_net::Ip;
use link_world::Listen;
use px_base::{Bytes, List};
use std::alloc::Global;

/// The listens of these words, whose entry points are distinct.
pub(crate) fn read_listens(alloc: Global, words: &[Bytes]) -> Result<List<Listen>, WordFault>
    ensures { MatchResult result
        (λ listens. AreListens words.now listens × (are_names_apart (map entry_of listens) ≡ true))
        (λ fault. fault ≡ WordFault.NotACommand → (listens : List ListenPlan) → AreListens words.now listens
        → are_names_apart (map entry_of listens) ≡ true → ⊥) }
{
    let listens = each_listen(alloc, words)?;
    if are_apart(listens.as_slice()) {
        Ok(listens)
    } else {
        Err(WordFault::NotACommand)
    }
}

// The listen of each word.
fn each_listen(alloc: Global, words: &[Bytes]) -> Result<List<Listen>, WordFault>
    ensures { MatchResult result
        (AreListens words.now)
        (λ fault. fault ≡ WordFault.NotACommand → (listens : List ListenPlan) → ¬ (AreListens words.now listens)) }
{
    let mut listens = List::new(alloc);
    for word in words {
        listens.push(read_listen(alloc, word.as_slice())?)?;
    }
    Ok(listens)
}

fn read_listen(alloc: Global, word: &[u8]) -> Result<Listen, WordFault>
    ensures { MatchResult result
        (IsListen word.now)
        (λ fault. fault ≡ WordFault.NotACommand → (listen : ListenPlan) → ¬ (IsListen word.now listen)) }
{
    match listen_parts(word) {
        Some((entry, ip, port)) => Ok(Listen {
            entry: Bytes::from_slice(alloc, entry)?,
            ip,
            port,
        }),
        None => Err(WordFault::NotACommand),
    }
}

fn listen_parts(word: &[u8]) -> Option<(&[u8], Ip, u16)>
    ensures { MatchOption result
        ((entry : List ℕ) (ip : Address) (port : ℕ) → ¬ (IsListenAt word.now entry ip port))
        (λ parts. IsListenAt word.now parts.0.now parts.1 parts.2) }
{
    let (entry, rest) = cut_at(word, b'=')?;
    if !is_entry(entry) {
        return None;
    }
    let (ip, port) = address(rest)?;
    Some((entry, ip, port))
}

// Whether the text may name an entry point. It has no `=`, since it stands before the first.
fn is_entry(text: &[u8]) -> bool
    ensures { IsTrue result ↔ IsEntry text.now }
{
    !text.is_empty()
        && text.len() <= 255
        && text.iter().all(|b| *b >= 33 && *b <= 126 && *b != b'@')
}

// Whether no two have the same entry point.
fn are_apart(listens: &[Listen]) -> bool
    ensures { result ≡ are_names_apart (map entry_of listens.now) }
{
    let mut rest = listens;
    while let Some((listen, more)) = rest.split_first() {
        if is_among(listen.entry.as_slice(), more) {
            return false;
        }
        rest = more;
    }
    true
}

// Whether one of the listens has this entry point.
fn is_among(entry: &[u8], listens: &[Listen]) -> bool
    ensures { result ≡ is_name_among entry.now (map entry_of listens.now) }
{
    let mut rest = listens;
    while let Some((listen, more)) = rest.split_first() {
        if listen.entry.as_slice() == entry {
            return true;
        }
        rest = more;
    }
    false
}
