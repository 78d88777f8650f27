// The pops of the balancers of all configurations.
ghost use Rattle.std.specs.Prelude.{◌≡◌, ◌∷◌, [], map};
ghost use Rattle.system_core.specs.Records.{last_pop, pops};
ghost use Rattle.system_core.specs.Views.{picked_of};

use link_world::NodePick;

/// A pick under the number of its configuration.
#[derive(Clone, Copy, Debug)]
pub(crate) struct Pop {
    pub(crate) number: u64,
    pub(crate) pick: NodePick,
}

/// How many pops were taken at a node of a configuration: where the last pick there ends.
pub(crate) fn popped_at(popped: &[Pop], number: u64, node: u32) -> u64
    ensures { result ≡ pops number node (map picked_of popped.now) }
{
    let mut count = 0;
    for pop in popped {
        count = count_with(count, pop, number, node);
    }
    count
}

fn count_with(count: u64, pop: &Pop, number: u64, node: u32) -> u64
    ensures { result ≡ last_pop number node count (picked_of pop.now ∷ []) }
{
    if pop.number == number && pop.pick.node == node {
        pop.pick.pick.to
    } else {
        count
    }
}
