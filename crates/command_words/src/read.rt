//! The command that words are.
ghost use Rattle.std.specs.Prelude.{◌≡◌, ◌≢◌, ◌∷◌, MatchResult, MatchOption, map, string_bytes};
ghost use Rattle.command_words.specs.declared.command.Command.{Command as TheCommand};
ghost use Rattle.command_words.specs.Commands.{IsCommand, Says, name_of as name_of_command};
ghost use Rattle.command_words.specs.Names.{text_of};

use crate::check::read_check;
use crate::command::{Command, WordFault};
use crate::route::read_route;
use crate::serve::read_serve;
use crate::sorting::{Sorted, sort_words};
use std::alloc::Global;

/// Reads the words after the program's name. Their first is the command. An option is `--name value` or `--name=value`;
/// its value isn't empty and in the first form doesn't begin with `-`; it may stand once, before or after other words.
/// `--` ends the options. Numbers have 1 to 10 digits.
///
/// ```text
/// route <config> [--entry <name>] [--peer <ip>]
/// check <config>
/// replay
/// serve <name>=<ip>:<port> ... [--file <path>] [--workers 1] [--requests <n>] [--access <prefix>]
/// ```
pub fn read_words(alloc: Global, words: &[String]) -> Result<Command, WordFault>
    ensures { MatchResult result
        (IsCommand (map string_bytes words.now))
        (λ fault. fault ≡ WordFault.NotACommand → (c : TheCommand) → ¬ (IsCommand (map string_bytes words.now) c)) }
{
    match words.split_first() {
        Some((name, rest)) => match command_named(name.as_bytes()) {
            Some(name) => read_rest(alloc, name, rest),
            None => Err(WordFault::NotACommand),
        },
        None => Err(WordFault::NotACommand),
    }
}

/// The commands without what they are given.
#[derive(Clone, Copy, Debug, PartialEq, Eq)]
pub(crate) enum Name {
    Route,
    Check,
    Replay,
    Serve,
}

fn command_named(word: &[u8]) -> Option<Name>
    ensures { MatchOption result
        ((c : TheCommand) → word.now ≢ name_of_command c)
        (λ name. word.now ≡ text_of name) }
{
    if word == b"route".as_slice() {
        Some(Name::Route)
    } else if word == b"check".as_slice() {
        Some(Name::Check)
    } else if word == b"replay".as_slice() {
        Some(Name::Replay)
    } else if word == b"serve".as_slice() {
        Some(Name::Serve)
    } else {
        None
    }
}

// What the words behind a command's name say.
fn read_rest(alloc: Global, name: Name, words: &[String]) -> Result<Command, WordFault>
    ensures { MatchResult result
        (IsCommand (text_of name ∷ map string_bytes words.now))
        (λ fault. fault ≡ WordFault.NotACommand → (c : TheCommand) → ¬ (IsCommand (text_of name ∷ map string_bytes words.now) c)) }
{
    let sorted = sort_words(alloc, words)?;
    read_sorted(alloc, name, &sorted)
}

fn read_sorted(alloc: Global, name: Name, sorted: &Sorted) -> Result<Command, WordFault>
    ensures { MatchResult result
        (λ c. (name_of_command c ≡ text_of name) × Says sorted.now c)
        (λ fault. fault ≡ WordFault.NotACommand → (c : TheCommand) → name_of_command c ≡ text_of name → ¬ (Says sorted.now c)) }
{
    match name {
        Name::Route => Ok(Command::Route(read_route(alloc, sorted)?)),
        Name::Check => Ok(Command::Check(read_check(alloc, sorted)?)),
        Name::Replay => read_replay(sorted),
        Name::Serve => Ok(Command::Serve(read_serve(alloc, sorted)?)),
    }
}

fn read_replay(sorted: &Sorted) -> Result<Command, WordFault>
    ensures { MatchResult result
        (λ c. (c ≡ Command.Replay) × Says sorted.now Command.Replay)
        (λ fault. ¬ (Says sorted.now Command.Replay)) }
{
    if sorted.settings.is_empty() && sorted.others.is_empty() {
        Ok(Command::Replay)
    } else {
        Err(WordFault::NotACommand)
    }
}
