//! The lines of a script.
ghost use Rattle.std.specs.Prelude.{◌≡◌, ◌≢◌, ◌++◌, ◌∷◌, [], ◌<◌, ◌≤◌, ◌^◌, ◌↔◌, ℕ, List, Bool, Option, All, MatchOption, SomeIff, IsTrue, length};
ghost use Rattle.ip_net.specs.declared.ip.Ip.{Ip as Address};
ghost use Rattle.px_base.specs.Decimals.{IsSpellingOf};
ghost use Rattle.replay_script.specs.Lines.{Cuts, name_of, command_of, IsWord, IsArrival, IsGift, IsCount, IsTaking, IsMark, IsRest, IsLone, IsLine, up_text, link_command, IsSmallNumber};

use ip_net::{Ip, read_ip};
use px_base::read_decimal;

/// A line of a script.
#[derive(Clone, Copy, Debug, PartialEq, Eq)]
pub enum Line<'a> {
    /// The lines that follow, each behind a `|`, are a configuration file.
    ConfigFile,
    /// They are a Consul reply, read under this root.
    ConfigConsul { root: &'a [u8] },
    Publish,
    /// A client comes at an entry point.
    Arrive { entry: &'a [u8], peer: Ip },
    /// A link gives bytes; the text is still to be read, by `unescape`.
    Bytes { link: u32, text: &'a [u8] },
    OnLink { kind: LinkKind, link: u32 },
    /// A link took so many of the bytes that are pending for it; none: all of them.
    Took { link: u32, count: Option<u64> },
    Mark { node: u32, server: u32, up: bool },
    /// The clock, in milliseconds.
    Tick { now: u64 },
    Stop,
}

/// What may happen to a link, or be done for one, without saying more.
#[derive(Clone, Copy, Debug, PartialEq, Eq)]
pub enum LinkKind {
    End,
    Fail,
    Pin,
    Look,
    Draw,
    Dial,
}

/// The first word of a line.
#[derive(Clone, Copy, Debug, PartialEq, Eq)]
pub(crate) enum Command {
    Config,
    Publish,
    Arrive,
    Bytes,
    End,
    Fail,
    Pin,
    Look,
    Draw,
    Dial,
    Took,
    Mark,
    Tick,
    Stop,
}

/// Reads a line, which has no line feed.
pub fn read_line(text: &[u8]) -> Option<Line<'_>>
    ensures { MatchOption result
        ((line : Line) → ¬ (IsLine text.now line))
        (IsLine text.now) }
{
    match cut_at_blank(text) {
        Some((word, rest)) => read_rest(command_named(word)?, rest),
        None => read_lone(text),
    }
}

// A line that is one word.
fn read_lone(text: &[u8]) -> Option<Line<'_>>
    ensures { MatchOption result
        ((line : Line) → IsLone line → text.now ≢ name_of (command_of line))
        (λ line. IsLone line × (text.now ≡ name_of (command_of line))) }
{
    if is_named(text, Command::Publish) {
        Some(Line::Publish)
    } else if is_named(text, Command::Stop) {
        Some(Line::Stop)
    } else {
        None
    }
}

fn command_named(word: &[u8]) -> Option<Command>
    ensures { MatchOption result
        ((c : Command) → word.now ≢ name_of c)
        (λ c. word.now ≡ name_of c) }
{
    if is_named(word, Command::Config) {
        Some(Command::Config)
    } else if is_named(word, Command::Publish) {
        Some(Command::Publish)
    } else if is_named(word, Command::Arrive) {
        Some(Command::Arrive)
    } else if is_named(word, Command::Bytes) {
        Some(Command::Bytes)
    } else if is_named(word, Command::End) {
        Some(Command::End)
    } else if is_named(word, Command::Fail) {
        Some(Command::Fail)
    } else if is_named(word, Command::Pin) {
        Some(Command::Pin)
    } else if is_named(word, Command::Look) {
        Some(Command::Look)
    } else if is_named(word, Command::Draw) {
        Some(Command::Draw)
    } else if is_named(word, Command::Dial) {
        Some(Command::Dial)
    } else if is_named(word, Command::Took) {
        Some(Command::Took)
    } else if is_named(word, Command::Mark) {
        Some(Command::Mark)
    } else if is_named(word, Command::Tick) {
        Some(Command::Tick)
    } else if is_named(word, Command::Stop) {
        Some(Command::Stop)
    } else {
        None
    }
}

fn is_named(word: &[u8], command: Command) -> bool
    ensures { IsTrue result ↔ (word.now ≡ name_of command) }
{
    word == name(command)
}

fn name(command: Command) -> &'static [u8]
    ensures { result.now ≡ name_of command }
{
    match command {
        Command::Config => b"config",
        Command::Publish => b"publish",
        Command::Arrive => b"arrive",
        Command::Bytes => b"bytes",
        Command::End => b"end",
        Command::Fail => b"fail",
        Command::Pin => b"pin",
        Command::Look => b"look",
        Command::Draw => b"draw",
        Command::Dial => b"dial",
        Command::Took => b"took",
        Command::Mark => b"mark",
        Command::Tick => b"tick",
        Command::Stop => b"stop",
    }
}

// What stands behind a command and a blank.
fn read_rest(command: Command, text: &[u8]) -> Option<Line<'_>>
    ensures { MatchOption result
        ((line : Line) → command_of line ≡ command → ¬ (IsRest text.now line))
        (λ line. (command_of line ≡ command) × IsRest text.now line) }
{
    match command {
        Command::Config => read_config(text),
        Command::Publish => None,
        Command::Arrive => read_arrival(text),
        Command::Bytes => read_gift(text),
        Command::End => read_link(LinkKind::End, text),
        Command::Fail => read_link(LinkKind::Fail, text),
        Command::Pin => read_link(LinkKind::Pin, text),
        Command::Look => read_link(LinkKind::Look, text),
        Command::Draw => read_link(LinkKind::Draw, text),
        Command::Dial => read_link(LinkKind::Dial, text),
        Command::Took => read_taking(text),
        Command::Mark => read_mark(text),
        Command::Tick => read_tick(text),
        Command::Stop => None,
    }
}

fn read_config(text: &[u8]) -> Option<Line<'_>>
    ensures { MatchOption result
        ((line : Line) → command_of line ≡ Command.Config → ¬ (IsRest text.now line))
        (λ line. (command_of line ≡ Command.Config) × IsRest text.now line) }
{
    match cut_at_blank(text) {
        Some((word, root)) => {
            if is_text(word, b"consul") {
                Some(Line::ConfigConsul { root })
            } else {
                None
            }
        }
        None => {
            if is_text(text, b"file") {
                Some(Line::ConfigFile)
            } else {
                None
            }
        }
    }
}

fn read_arrival(text: &[u8]) -> Option<Line<'_>>
    ensures { MatchOption result
        ((line : Line) → command_of line ≡ Command.Arrive → ¬ (IsRest text.now line))
        (λ line. (command_of line ≡ Command.Arrive) × IsRest text.now line) }
{
    match arrival(text) {
        Some((entry, peer)) => Some(Line::Arrive { entry, peer }),
        None => None,
    }
}

fn arrival(text: &[u8]) -> Option<(&[u8], Ip)>
    ensures { MatchOption result
        ((entry : List ℕ) (peer : Ip) → ¬ (IsArrival text.now entry peer))
        (λ a. IsArrival text.now a.0.now a.1) }
{
    let (entry, ip) = cut_at_blank(text)?;
    if !is_word(entry) {
        return None;
    }
    let peer = read_ip(ip)?;
    Some((entry, peer))
}

fn read_gift(text: &[u8]) -> Option<Line<'_>>
    ensures { MatchOption result
        ((line : Line) → command_of line ≡ Command.Bytes → ¬ (IsRest text.now line))
        (λ line. (command_of line ≡ Command.Bytes) × IsRest text.now line) }
{
    match gift(text) {
        Some((link, text)) => Some(Line::Bytes { link, text }),
        None => None,
    }
}

fn gift(text: &[u8]) -> Option<(u32, &[u8])>
    ensures { MatchOption result
        ((link : ℕ) (given : List ℕ) → ¬ (IsGift text.now link given))
        (λ g. IsGift text.now g.0 g.1.now) }
{
    let (number, given) = cut_at_blank(text)?;
    let link = small_number(number)?;
    Some((link, given))
}

fn read_link(kind: LinkKind, text: &[u8]) -> Option<Line<'_>>
    ensures { MatchOption result
        ((line : Line) → command_of line ≡ link_command kind → ¬ (IsRest text.now line))
        (λ line. (command_of line ≡ link_command kind) × IsRest text.now line) }
{
    match small_number(text) {
        Some(link) => Some(Line::OnLink { kind, link }),
        None => None,
    }
}

fn read_taking(text: &[u8]) -> Option<Line<'_>>
    ensures { MatchOption result
        ((line : Line) → command_of line ≡ Command.Took → ¬ (IsRest text.now line))
        (λ line. (command_of line ≡ Command.Took) × IsRest text.now line) }
{
    match taking(text) {
        Some((link, count)) => Some(Line::Took { link, count }),
        None => None,
    }
}

fn taking(text: &[u8]) -> Option<(u32, Option<u64>)>
    ensures { MatchOption result
        ((link : ℕ) (count : Option ℕ) → ¬ (IsTaking text.now link count))
        (λ t. IsTaking text.now t.0 t.1) }
{
    let (number, more) = cut_at_blank(text)?;
    let link = small_number(number)?;
    let count = count_of(more)?;
    Some((link, count))
}

fn count_of(text: &[u8]) -> Option<Option<u64>>
    ensures { MatchOption result
        ((count : Option ℕ) → ¬ (IsCount text.now count))
        (λ count. IsCount text.now count) }
{
    if is_text(text, b"all") {
        return Some(None);
    }
    match number(text) {
        Some(count) => Some(Some(count)),
        None => None,
    }
}

fn read_mark(text: &[u8]) -> Option<Line<'_>>
    ensures { MatchOption result
        ((line : Line) → command_of line ≡ Command.Mark → ¬ (IsRest text.now line))
        (λ line. (command_of line ≡ Command.Mark) × IsRest text.now line) }
{
    match mark(text) {
        Some((node, server, up)) => Some(Line::Mark { node, server, up }),
        None => None,
    }
}

fn mark(text: &[u8]) -> Option<(u32, u32, bool)>
    ensures { MatchOption result
        ((node server : ℕ) (up : Bool) → ¬ (IsMark text.now node server up))
        (λ m. IsMark text.now m.0 m.1 m.2) }
{
    let (a, more) = cut_at_blank(text)?;
    let node = small_number(a)?;
    let (b, verdict) = cut_at_blank(more)?;
    let server = small_number(b)?;
    let up = is_up(verdict)?;
    Some((node, server, up))
}

fn is_up(text: &[u8]) -> Option<bool>
    ensures { MatchOption result
        ((up : Bool) → text.now ≢ up_text up)
        (λ up. text.now ≡ up_text up) }
{
    if is_text(text, b"up") {
        Some(true)
    } else if is_text(text, b"down") {
        Some(false)
    } else {
        None
    }
}

fn read_tick(text: &[u8]) -> Option<Line<'_>>
    ensures { MatchOption result
        ((line : Line) → command_of line ≡ Command.Tick → ¬ (IsRest text.now line))
        (λ line. (command_of line ≡ Command.Tick) × IsRest text.now line) }
{
    match number(text) {
        Some(now) => Some(Line::Tick { now }),
        None => None,
    }
}

// What stands before the first blank and what stands behind it.
fn cut_at_blank(text: &[u8]) -> Option<(&[u8], &[u8])>
    ensures { MatchOption result
        (All (λ b. b ≢ 32) text.now)
        (λ parts. Cuts text.now parts.0.now parts.1.now) }
{
    let at = text.iter().position(|b| *b == b' ')?;
    Some((&text[..at], &text[at + 1..]))
}

fn is_word(text: &[u8]) -> bool
    ensures { IsTrue result ↔ IsWord text.now }
{
    !text.is_empty() && text.iter().all(|b| *b >= 33 && *b <= 126)
}

fn is_text(text: &[u8], other: &[u8]) -> bool
    ensures { IsTrue result ↔ (text.now ≡ other.now) }
{
    text == other
}

// A number below 2^64 without leading zeros.
fn number(text: &[u8]) -> Option<u64>
    ensures { MatchOption result
        ((n : ℕ) → ¬ (IsSpellingOf n text.now))
        (λ n. IsSpellingOf n text.now) }
{
    if text.len() > 1 && text[0] == b'0' {
        return None;
    }
    read_decimal(text)
}

// The same below 2^32.
fn small_number(text: &[u8]) -> Option<u32>
    ensures { MatchOption result
        ((n : ℕ) → ¬ (IsSmallNumber n text.now))
        (λ n. IsSmallNumber n text.now) }
{
    u32::try_from(number(text)?).ok()
}
