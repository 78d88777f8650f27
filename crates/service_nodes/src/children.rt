//! The numbers of the services to which references lead.
ghost use Rattle.std.specs.Prelude.{◌≡◌, Some, All, map, IfOk};
ghost use Rattle.reference_graph.specs.Numbering.{number_in};
ghost use Rattle.service_nodes.specs.Nodes.{number_behind as number_found};
ghost use Rattle.service_nodes.specs.Ready.{HasNumber};

use px_base::{List, Memory};
use std::alloc::Global;

pub(crate) fn children_at(
    alloc: Global,
    places: &[Option<usize>],
    numbers: &[Option<usize>],
) -> Result<List<u32>, Memory>
    requires { All (HasNumber numbers.now) places.now }
    ensures { IfOk result (λ children. map Some children ≡ map (number_found (number_in numbers.now)) places.now) }
{
    let mut children = List::new(alloc);
    for place in places {
        children.push(child_at(*place, numbers))?;
    }
    Ok(children)
}

pub(crate) fn child_at(place: Option<usize>, numbers: &[Option<usize>]) -> u32
    requires { HasNumber numbers.now place }
    ensures { Some result ≡ number_found (number_in numbers.now) place }
{
    match number_behind(place, numbers) {
        Some(number) => number as u32,
        None => unreachable!(),
    }
}

fn number_behind(place: Option<usize>, numbers: &[Option<usize>]) -> Option<usize>
    ensures { result ≡ number_found (number_in numbers.now) place }
{
    match place {
        Some(at) => match numbers.get(at) {
            Some(number) => *number,
            None => None,
        },
        None => None,
    }
}
