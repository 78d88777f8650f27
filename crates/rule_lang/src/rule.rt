//! A rule as a tree. It knows nothing of its text.
use crate::Matcher;
use px_base::Bytes;
use sqlite_items::Boxed;

/// A call: a matcher with its values. A matcher of one value has an empty key.
#[derive(Debug, Drop)]
pub struct Leaf {
    pub matcher: Matcher,
    pub key: Bytes,
    pub value: Bytes,
}

/// A rule.
#[derive(Drop)]
pub enum Rule {
    Leaf(Leaf),
    Not(Boxed<Rule>),
    And(Boxed<Rule>, Boxed<Rule>),
    Or(Boxed<Rule>, Boxed<Rule>),
}
