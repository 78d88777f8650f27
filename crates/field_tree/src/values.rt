//! What a value is, in each of the two styles of configuration.

ghost use Rattle.std.specs.Prelude.{◌≡◌, ◌||◌, [], Ok, Err, MatchResult, bytes_eq, codes};
ghost use Rattle.field_tree.specs.Values.{text_of, is_empty_sign, number_in, flag_in, IsTimeIn, IsTimeBy};
ghost use Rattle.field_tree.specs.Texts.{number_of};
ghost use Rattle.field_tree.specs.Times.{time_in};

use crate::durations::{of_seconds, read_duration};
use crate::texts::{read_flag, read_number};
use crate::{Tree, ValueFault};

/// How a configuration writes what is no text.
#[derive(Clone, Copy, PartialEq, Eq, Debug)]
pub enum Style {
    /// With the kinds of its own, as TOML.
    Typed,
    /// All as texts under paths, as a store of keys and values.
    Texts,
}

impl Tree {
    /// The text of a value.
    pub fn text(&self) -> Result<&[u8], ValueFault>
        ensures { MatchResult result (λ text. text_of self.now ≡ Ok text.now) (λ fault. text_of self.now ≡ Err fault) }
    {
        match self {
            Tree::Text(text) => Ok(text.as_slice()),
            Tree::Num(_) => Err(ValueFault::Kind),
            Tree::Flag(_) => Err(ValueFault::Kind),
            Tree::Other => Err(ValueFault::Kind),
            Tree::List(_) => Err(ValueFault::Kind),
            Tree::Table(_) => Err(ValueFault::Kind),
        }
    }

    /// Whether a value of style `Texts` stands for a table or a list without entries: the text `true`, or
    /// an empty text.
    pub fn stands_for_empty(&self) -> bool
        ensures { result ≡ is_empty_sign self.now }
    {
        match self {
            Tree::Text(text) => is_empty_text(text.as_slice()),
            Tree::Num(_) => false,
            Tree::Flag(_) => false,
            Tree::Other => false,
            Tree::List(_) => false,
            Tree::Table(_) => false,
        }
    }

    /// The number of a value.
    pub fn number(&self, style: Style) -> Result<i64, ValueFault>
        ensures { result ≡ number_in style self.now }
    {
        match style {
            Style::Typed => match self {
                Tree::Num(number) => Ok(*number),
                Tree::Text(_) => Err(ValueFault::Kind),
                Tree::Flag(_) => Err(ValueFault::Kind),
                Tree::Other => Err(ValueFault::Kind),
                Tree::List(_) => Err(ValueFault::Kind),
                Tree::Table(_) => Err(ValueFault::Kind),
            },
            Style::Texts => match self {
                Tree::Text(text) => read_number(text.as_slice()),
                Tree::Num(_) => Err(ValueFault::Kind),
                Tree::Flag(_) => Err(ValueFault::Kind),
                Tree::Other => Err(ValueFault::Kind),
                Tree::List(_) => Err(ValueFault::Kind),
                Tree::Table(_) => Err(ValueFault::Kind),
            },
        }
    }

    /// The flag of a value.
    pub fn flag(&self, style: Style) -> Result<bool, ValueFault>
        ensures { result ≡ flag_in style self.now }
    {
        match style {
            Style::Typed => match self {
                Tree::Flag(flag) => Ok(*flag),
                Tree::Text(_) => Err(ValueFault::Kind),
                Tree::Num(_) => Err(ValueFault::Kind),
                Tree::Other => Err(ValueFault::Kind),
                Tree::List(_) => Err(ValueFault::Kind),
                Tree::Table(_) => Err(ValueFault::Kind),
            },
            Style::Texts => match self {
                Tree::Text(text) => read_flag(text.as_slice()),
                Tree::Num(_) => Err(ValueFault::Kind),
                Tree::Flag(_) => Err(ValueFault::Kind),
                Tree::Other => Err(ValueFault::Kind),
                Tree::List(_) => Err(ValueFault::Kind),
                Tree::Table(_) => Err(ValueFault::Kind),
            },
        }
    }

    /// The time of a value, in milliseconds: a number of its style is seconds, and a text is a time.
    pub fn duration(&self, style: Style) -> Result<u64, ValueFault>
        ensures value { result ≡ time_in style self.now }
        ensures time { IsTimeIn style self.now result }
    {
        let time = self.time(style);
        time
    }

    fn time(&self, style: Style) -> Result<u64, ValueFault>
        ensures { IsTimeIn style self.now result }
    {
        match style {
            Style::Typed => match self {
                Tree::Num(seconds) => of_seconds(*seconds),
                Tree::Text(text) => read_duration(text.as_slice()),
                Tree::Flag(_) => Err(ValueFault::Kind),
                Tree::Other => Err(ValueFault::Kind),
                Tree::List(_) => Err(ValueFault::Kind),
                Tree::Table(_) => Err(ValueFault::Kind),
            },
            Style::Texts => match self {
                Tree::Text(text) => seconds_or_time(text.as_slice()),
                Tree::Num(_) => Err(ValueFault::Kind),
                Tree::Flag(_) => Err(ValueFault::Kind),
                Tree::Other => Err(ValueFault::Kind),
                Tree::List(_) => Err(ValueFault::Kind),
                Tree::Table(_) => Err(ValueFault::Kind),
            },
        }
    }
}

fn seconds_or_time(text: &[u8]) -> Result<u64, ValueFault>
    ensures { IsTimeBy (number_of text.now) text.now result }
{
    match read_number(text) {
        Ok(seconds) => of_seconds(seconds),
        Err(ValueFault::Range) => Err(ValueFault::Range),
        Err(ValueFault::Kind) => read_duration(text),
    }
}

fn is_empty_text(text: &[u8]) -> bool
    ensures { result ≡ (bytes_eq text.now [] || bytes_eq text.now (codes "true")) }
{
    text == b"".as_slice() || text == b"true".as_slice()
}
