//! How services are judged.

use crate::fault::ServiceFault;
use px_base::{Bytes, List};
use reference_graph::Height;

/// How the services of a configuration are judged. A service is known by its place among the declared ones.
#[derive(Drop)]
pub struct Judgement {
    /// For each service, where its references lead.
    pub links: Vec<List<Option<usize>>>,
    /// For each service how high its tree is, where it is sound.
    pub heights: Vec<Option<Height>>,
    /// The disabled services by name, each with the first reason against it.
    pub faults: List<(Bytes, ServiceFault)>,
}
