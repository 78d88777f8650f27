//! By what routers are judged, beside their own options and rules.
use dyn_config::Merged;
use px_base::Bytes;

// The services and middlewares that are declared, and the names of those that are usable.
#[derive(Clone, Copy, Drop)]
pub(crate) struct Setting<'a> {
    pub merged: &'a Merged,
    pub services: &'a [Bytes],
    // Each with its flattened length.
    pub middlewares: &'a [(Bytes, u32)],
}
