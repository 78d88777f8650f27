//! Which token may come next.
ghost use Rattle.std.specs.Prelude.{◌≡◌, ◌<◌, ◌+◌, ◌^◌, MatchOption, Some};
ghost use Rattle.rule_lang.specs.Expects.{stepped, closes as closed_from, begins_operand as operand_from, follows_operand as operator_from, opens_call as call_from, begins_values as values_from, begins_value as value_from, follows_value as after_from, is_whole_at, at_next};
ghost use Rattle.rule_lang.specs.Forms.{Form, IsRule};
ghost use Rattle.rule_lang.specs.Faults.{IsUnexpected};

use crate::{Token, TokenKind};

// What the next token may be.
#[derive(Clone, Copy)]
pub(crate) enum Next {
    // `!`, `(` or a name.
    Operand,
    // `&&`, `||`, or `)` where a group is open.
    Operator,
    // The `(` of a call.
    CallOpen,
    // A value, or the `)` of a call.
    FirstValue,
    // A value.
    Value,
    // `,`, or the `)` of a call.
    AfterValue,
}

// How far a rule is read: what comes next, and how many groups are open.
#[derive(Clone, Copy)]
pub(crate) struct Progress {
    pub(crate) next: Next,
    pub(crate) groups: usize,
}

// The start of the first token with which the tokens so far begin no rule, or the text's length
// where they begin one and are none. None exactly where they are a rule.
pub(crate) fn first_unexpected(tokens: &[Token], len: usize) -> Option<usize>
    ensures { MatchOption result ((f : Form) × IsRule tokens.now f) (IsUnexpected len tokens.now) }
{
    let mut progress = Progress {
        next: Next::Operand,
        groups: 0,
    };
    for token in tokens {
        match step(progress, token.kind) {
            Some(next) => progress = next,
            None => return Some(token.start),
        }
    }
    if is_whole(progress) { None } else { Some(len) }
}

fn is_whole(progress: Progress) -> bool
    ensures { result ≡ is_whole_at progress.next progress.groups }
{
    match progress.next {
        Next::Operator => progress.groups == 0,
        Next::Operand | Next::CallOpen | Next::FirstValue | Next::Value | Next::AfterValue => false,
    }
}

// One token further, or None where it may not come.
fn step(progress: Progress, kind: TokenKind) -> Option<Progress>
    requires { progress.groups + 1 < 2 ^ 64 }
    ensures { result ≡ stepped progress kind }
{
    let groups = progress.groups;
    match progress.next {
        Next::Operand => begins_operand(groups, kind),
        Next::Operator => follows_operand(groups, kind),
        Next::CallOpen => opens_call(groups, kind),
        Next::FirstValue => begins_values(groups, kind),
        Next::Value => begins_value(groups, kind),
        Next::AfterValue => follows_value(groups, kind),
    }
}

fn begins_operand(groups: usize, kind: TokenKind) -> Option<Progress>
    requires { groups + 1 < 2 ^ 64 }
    ensures { result ≡ operand_from groups kind }
{
    match kind {
        TokenKind::Not => to(Next::Operand, groups),
        TokenKind::Open => to(Next::Operand, groups + 1),
        TokenKind::Name => to(Next::CallOpen, groups),
        TokenKind::Or
        | TokenKind::And
        | TokenKind::Close
        | TokenKind::Comma
        | TokenKind::Raw
        | TokenKind::Quoted => None,
    }
}

fn follows_operand(groups: usize, kind: TokenKind) -> Option<Progress>
    ensures { result ≡ operator_from groups kind }
{
    match kind {
        TokenKind::And | TokenKind::Or => to(Next::Operand, groups),
        TokenKind::Close => closes(groups),
        TokenKind::Not
        | TokenKind::Open
        | TokenKind::Comma
        | TokenKind::Name
        | TokenKind::Raw
        | TokenKind::Quoted => None,
    }
}

fn closes(groups: usize) -> Option<Progress>
    ensures { result ≡ closed_from groups }
{
    if groups == 0 {
        None
    } else {
        to(Next::Operator, groups - 1)
    }
}

fn opens_call(groups: usize, kind: TokenKind) -> Option<Progress>
    ensures { result ≡ call_from groups kind }
{
    match kind {
        TokenKind::Open => to(Next::FirstValue, groups),
        TokenKind::Or
        | TokenKind::And
        | TokenKind::Not
        | TokenKind::Close
        | TokenKind::Comma
        | TokenKind::Name
        | TokenKind::Raw
        | TokenKind::Quoted => None,
    }
}

fn begins_values(groups: usize, kind: TokenKind) -> Option<Progress>
    ensures { result ≡ values_from groups kind }
{
    match kind {
        TokenKind::Raw | TokenKind::Quoted => to(Next::AfterValue, groups),
        TokenKind::Close => to(Next::Operator, groups),
        TokenKind::Or
        | TokenKind::And
        | TokenKind::Not
        | TokenKind::Open
        | TokenKind::Comma
        | TokenKind::Name => None,
    }
}

fn begins_value(groups: usize, kind: TokenKind) -> Option<Progress>
    ensures { result ≡ value_from groups kind }
{
    match kind {
        TokenKind::Raw | TokenKind::Quoted => to(Next::AfterValue, groups),
        TokenKind::Or
        | TokenKind::And
        | TokenKind::Not
        | TokenKind::Open
        | TokenKind::Close
        | TokenKind::Comma
        | TokenKind::Name => None,
    }
}

fn follows_value(groups: usize, kind: TokenKind) -> Option<Progress>
    ensures { result ≡ after_from groups kind }
{
    match kind {
        TokenKind::Comma => to(Next::Value, groups),
        TokenKind::Close => to(Next::Operator, groups),
        TokenKind::Or
        | TokenKind::And
        | TokenKind::Not
        | TokenKind::Open
        | TokenKind::Name
        | TokenKind::Raw
        | TokenKind::Quoted => None,
    }
}

fn to(next: Next, groups: usize) -> Option<Progress>
    ensures { result ≡ Some (at_next next groups) }
{
    Some(Progress { next, groups })
}
