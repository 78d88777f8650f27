//! The values that an option was given.
ghost use Rattle.std.specs.Prelude.{◌≡◌, ◌∷◌, [], List, ℕ, MatchOption, MatchResult};
ghost use Rattle.command_words.specs.Values.{values_of, IsListed, IsTwice, Chosen};

use crate::command::WordFault;
use crate::sorting::Setting;
use px_base::Bytes;
use std::alloc::Global;

/// The value of an option that may stand once; none where it doesn't stand.
pub(crate) fn value_of<'s>(
    settings: &'s [Setting],
    name: &[u8],
) -> Result<Option<&'s [u8]>, WordFault>
    ensures { MatchResult result
        (IsListed (values_of name.now settings.now))
        (λ fault. (fault ≡ WordFault.NotACommand) × IsTwice (values_of name.now settings.now)) }
{
    match first_value(settings, name) {
        None => Ok(None),
        Some((value, more)) => match first_value(more, name) {
            None => Ok(Some(value)),
            Some(_) => Err(WordFault::NotACommand),
        },
    }
}

// The first value of an option, and the settings behind it.
fn first_value<'s>(settings: &'s [Setting], name: &[u8]) -> Option<(&'s [u8], &'s [Setting])>
    ensures { MatchOption result
        (values_of name.now settings.now ≡ [])
        (λ found. values_of name.now settings.now ≡ found.0.now ∷ values_of name.now found.1.now) }
{
    let mut rest = settings;
    while let Some((setting, more)) = rest.split_first() {
        if setting.name.as_slice() == name {
            return Some((setting.value.as_slice(), more));
        }
        rest = more;
    }
    None
}

/// The text of an option that may stand once; none where it doesn't stand.
pub(crate) fn text_of(
    alloc: Global,
    settings: &[Setting],
    name: &[u8],
) -> Result<Option<Bytes>, WordFault>
    ensures { MatchResult result
        (Chosen (values_of name.now settings.now) None (λ value text. text ≡ Some value))
        (λ fault. fault ≡ WordFault.NotACommand → IsTwice (values_of name.now settings.now)) }
{
    match value_of(settings, name)? {
        Some(value) => Ok(Some(Bytes::from_slice(alloc, value)?)),
        None => Ok(None),
    }
}
