//! What one word is, by its dashes.
ghost use Rattle.std.specs.Prelude.{◌≡◌};
ghost use Rattle.command_words.specs.Words.{shown_kind, kind_of as kind_of_word, dashed_kind as kind_behind_dash, option_kind as kind_of_option, is_value as may_be_value};

use crate::cuts::cut_at;

/// What a word is among the words behind a command's name.
#[derive(Clone, Copy, Debug, PartialEq, Eq)]
pub(crate) enum Kind<'a> {
    /// `--`, which ends the options.
    Ends,
    /// The name of an option, whose value is the next word.
    Named(&'a [u8]),
    /// An option's name and its value.
    Valued(&'a [u8], &'a [u8]),
    /// A word that may not stand there.
    Refused,
    /// Not an option.
    Other,
}

pub(crate) fn kind_of(word: &[u8]) -> Kind<'_>
    ensures { shown_kind result ≡ kind_of_word word.now }
{
    match word.split_first() {
        Some((first, rest)) => {
            if *first == b'-' {
                dashed_kind(rest)
            } else {
                Kind::Other
            }
        }
        None => Kind::Other,
    }
}

// The kind of a word behind its first dash.
fn dashed_kind(text: &[u8]) -> Kind<'_>
    ensures { shown_kind result ≡ kind_behind_dash text.now }
{
    match text.split_first() {
        Some((first, rest)) => {
            if *first == b'-' {
                option_kind(rest)
            } else {
                Kind::Refused
            }
        }
        None => Kind::Refused,
    }
}

// The kind of a word behind two dashes.
fn option_kind(text: &[u8]) -> Kind<'_>
    ensures { shown_kind result ≡ kind_of_option text.now }
{
    if text.is_empty() {
        return Kind::Ends;
    }
    match cut_at(text, b'=') {
        None => Kind::Named(text),
        Some((name, value)) => {
            if value.is_empty() {
                Kind::Refused
            } else {
                Kind::Valued(name, value)
            }
        }
    }
}

/// Whether a word may be the value of the option that the word before it names.
pub(crate) fn is_value(word: &[u8]) -> bool
    ensures { result ≡ may_be_value word.now }
{
    match word.split_first() {
        Some((first, _)) => *first != b'-',
        None => false,
    }
}
