//! A token of a rule's text.

/// What a token is.
#[derive(Clone, Copy, Debug, PartialEq, Eq)]
pub enum TokenKind {
    /// `||`
    Or,
    /// `&&`
    And,
    /// `!`
    Not,
    /// `(`
    Open,
    /// `)`
    Close,
    /// `,`
    Comma,
    /// ASCII letters.
    Name,
    /// A value in backquotes.
    Raw,
    /// A value in double quotes, in which a backslash stands before `"` and a backslash.
    Quoted,
}

/// A token and its place in the text: from byte `start` up to byte `end`.
#[derive(Clone, Copy, Debug, PartialEq, Eq)]
pub struct Token {
    pub kind: TokenKind,
    pub start: usize,
    pub end: usize,
}
