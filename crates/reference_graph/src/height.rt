//! How high a tree is.

/// How deep an object's tree is, and how many objects it has.
#[derive(Clone, Copy, Debug, PartialEq, Eq)]
pub struct Height {
    /// The most objects that stand one below another: 1 for an object that refers to nothing.
    pub depth: u32,
    /// How many objects stand in it, each as often as it is named.
    pub size: u32,
}
