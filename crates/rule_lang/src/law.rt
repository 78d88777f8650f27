//! What holds of every rule and its print.
ghost use Rattle.std.specs.Prelude.{◌≡◌, ◌≤◌, List, ℕ, Result, length};
ghost use Rattle.rule_lang.specs.Trees.{Tree};
ghost use Rattle.rule_lang.specs.declared.read.RuleFault.{RuleFault};
ghost use Rattle.rule_lang.specs.Reading.{HasForm, IsOutcome, IsReadAs, Means, WantsMemory};
ghost use Rattle.rule_lang.specs.Forms.{Form};
ghost use Rattle.rule_lang.specs.Prints.{rule_print};
ghost use Rattle.rule_lang.specs.Grammar.{IsReadable, IsRuleText};

/// The print of a rule whose calls have values that their matchers take is a text of that rule.
pub fn prints_are_rule_texts()
    ensures { (rule : Tree) → IsReadable rule → IsRuleText (rule_print rule) rule }
{}

/// A text has one outcome unless memory runs out: one rule, or one fault at one place. So `read_rule` answers that one,
/// or that memory ran out, and each fault comes exactly where it is.
pub fn outcomes_are_alone()
    ensures { (text : List ℕ) (a b : Result Tree RuleFault) → IsOutcome text a → IsOutcome text b → ¬ (WantsMemory a) → ¬ (WantsMemory b) → a ≡ b }
{}

/// Each text of the grammar has a form, and the form means that rule. So `read_rule` reads it as
/// that rule where it has at most 4,096 bytes and its depth is at most 32.
pub fn rule_texts_have_forms()
    ensures { (text : List ℕ) (rule : Tree) → IsRuleText text rule → (f : Form) × HasForm text f × Means text f rule }
{}

/// A rule that was read is read again from its print, where that has at most 4,096 bytes.
pub fn prints_are_read_again()
    ensures { (text : List ℕ) (rule : Tree) → IsReadAs text rule → length (rule_print rule) ≤ 4096 → IsReadAs (rule_print rule) rule }
{}
