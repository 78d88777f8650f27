//! A compiled rule as a tree.
use crate::probe::Probe;
use sqlite_items::Boxed;

// Which operand is asked first. It changes no answer, only what the answer costs.
#[derive(Clone, Copy)]
pub(crate) enum Order {
    LeftFirst,
    RightFirst,
}

// A compiled rule.
#[derive(Drop)]
pub(crate) enum Check {
    Leaf(Probe),
    Not(Boxed<Check>),
    And(Order, Boxed<Check>, Boxed<Check>),
    Or(Order, Boxed<Check>, Boxed<Check>),
}
