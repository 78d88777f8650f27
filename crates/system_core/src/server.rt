// The schedule of a balancer of one server, which counts as up.
ghost use Rattle.std.specs.Prelude.{◌≡◌};
ghost use Rattle.wrr_deadlines.specs.Choice.{Draws};
ghost use Rattle.system_core.specs.Records.{one_server};

use px_base::Memory;
use std::alloc::Global;
use wrr_deadlines::{Drawn, Period};

#[derive(Drop)]
pub(crate) struct OneServer {
    table: Period,
    ghost weights: { table ≡ one_server },
}

impl OneServer {
    pub(crate) fn new(alloc: Global) -> Result<OneServer, Memory> {
        let table = Period::new(alloc, &[1])?;
        Ok(OneServer { table })
    }

    /// What is drawn after the first `count` pops.
    pub(crate) fn draw(&self, count: u64) -> Drawn
        ensures { Draws one_server 1 count result }
    {
        self.table.first_up(count, 1)
    }
}
