//! A compiled pattern, which contracts know by its text.
ghost use Rattle.regex.specs.Strings.{regex_source, regex_pattern, regex_names};
ghost use Rattle.rule_eval.specs.Patterns.{FindsAsRead, ReplacesAsRead};

use crate::building::{PatternFault, build};
use px_base::Memory;
use regex::{Regex, Template};
use std::alloc::Global;

/// A compiled pattern.
#[derive(Drop)]
pub struct Pattern {
    regex: Regex,
    ghost finds: { FindsAsRead (regex_source regex) (regex_pattern regex) },
    ghost replaces: { ReplacesAsRead (regex_source regex) (regex_pattern regex) (regex_names regex) },
}

impl Pattern {
    ghost use Rattle.std.specs.Prelude.{IfOk, OnOk, IsErrOf, ◌≡◌, Some, string_bytes};
    ghost use Rattle.rule_eval.specs.Patterns.{IsReadable, is_found_in, replaced_in};
    ghost use Rattle.rule_eval.specs.Views.{pattern_text};

    // A compiled pattern of this text, of at most 1 MiB.
    pub(crate) fn new(alloc: Global, text: &str) -> Result<Pattern, PatternFault>
        ensures text { IfOk result (λ p. pattern_text p ≡ text.now) }
        ensures read { OnOk result (IsReadable text.now) }
        ensures syntax { IsErrOf result PatternFault.Syntax → ¬ (IsReadable text.now) }
        ensures too_big { IsErrOf result PatternFault.TooBig → IsReadable text.now }
    {
        let regex = build(alloc, text)?;
        Ok(Pattern { regex })
    }

    /// Whether the pattern is found in a text. It makes a matcher, which takes memory.
    pub fn is_found(&self, alloc: Global, hay: &str) -> Result<bool, Memory>
        ensures { IfOk result (λ found. found ≡ is_found_in (pattern_text self.now) hay.now) }
    {
        let mut matcher = self.regex.matcher(alloc)?;
        Ok(matcher.is_match(hay))
    }

    /// The text with each match replaced by what the template writes there (`$1`, `${name}`, `$$`).
    pub fn replace(&self, alloc: Global, template: &str, hay: &str) -> Result<String, Memory>
        ensures { IfOk result (λ out. Some (string_bytes out) ≡ replaced_in (pattern_text self.now) template.now hay.now) }
    {
        let template = Template::new(alloc, self.regex.capture_names(), template)?;
        let mut matcher = self.regex.matcher(alloc)?;
        matcher.replace_all(alloc, hay, &template)
    }
}
