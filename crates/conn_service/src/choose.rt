//! A request gets its configuration, the look at its server and the draw.
ghost use Rattle.std.specs.Prelude.{◌≡◌, ◌<◌, ℕ, OnOk};
ghost use Rattle.link_world.specs.Seen.{Seen};
ghost use Rattle.link_world.specs.Lately.{Lately};
ghost use Rattle.desk.specs.Desks.{IsAttended};
ghost use Rattle.conn_machine.specs.Prompt.{IsPrompt};
ghost use Rattle.conn_machine.specs.Reached.{Waits};
ghost use Rattle.conn_service.specs.Moments.{moment, Linked};
ghost use Rattle.conn_service.specs.Pins.{IsBelow};
ghost use Rattle.conn_service.specs.Went.{Went};

use conn_machine::{Conn, Stage, Want};
use desk::Shared;
use link_world::{Look, NodePick};
use px_base::Memory;
use std::alloc::{AllocError, Global};
use std::sync::Wait;
use wrr_deadlines::Drawn;

/// Leads a request that waits for its configuration to its reply or to its dial.
pub(crate) fn choose<R: Wait, S: Shared>(
    conn: &mut Conn,
    rt: &R,
    alloc: Global,
    shared: &mut S,
) -> Result<(), Memory>
    requires waits { Waits Stage.Pin conn.old }
    requires below { IsBelow (S.desk shared.old).generations conn.old.current.number }
    ensures prompt { IsPrompt conn.old → OnOk result (IsPrompt conn.new) }
    ensures went { (s : Seen) (l : Lately) → Linked s conn.old → Went ⊥ (moment s l (S.desk shared.old) conn.old) (moment s l (S.desk shared.new) conn.new) }
{
    pin(conn, rt, alloc, shared)?;
    look(conn, rt, alloc, shared)
}

// Pins the request to the last configuration, which it keeps whatever becomes of its seat.
fn pin<R: Wait, S: Shared>(
    conn: &mut Conn,
    rt: &R,
    alloc: Global,
    shared: &mut S,
) -> Result<(), Memory>
    requires waits { Waits Stage.Pin conn.old }
    requires below { IsBelow (S.desk shared.old).generations conn.old.current.number }
    ensures went { (s : Seen) (l : Lately) → Linked s conn.old → Went ⊥ (moment s l (S.desk shared.old) conn.old) (moment s l (S.desk shared.new) conn.new) }
    ensures prompt { IsPrompt conn.old → OnOk result (IsPrompt conn.new) }
    ensures attended { OnOk result (IsAttended (S.desk shared.new) conn.new.current.number) }
    ensures looks { OnOk result (0 < (S.room shared.new).looks) }
    ensures picks { OnOk result (0 < (S.room shared.new).picks) }
{
    let issue = shared.pin()?;
    let attended = shared.attend(rt, &issue);
    conn.pin(alloc, issue)?;
    attended
}

// Looks which servers are up, where the request waits for it, and goes on.
fn look<R: Wait, S: Shared>(
    conn: &mut Conn,
    rt: &R,
    alloc: Global,
    shared: &mut S,
) -> Result<(), Memory>
    requires attended { IsAttended (S.desk shared.old) conn.old.current.number }
    requires looks { 0 < (S.room shared.old).looks }
    requires picks { 0 < (S.room shared.old).picks }
    ensures prompt { IsPrompt conn.old → OnOk result (IsPrompt conn.new) }
    ensures went { (s : Seen) (l : Lately) → Linked s conn.old → Went ⊥ (moment s l (S.desk shared.old) conn.old) (moment s l (S.desk shared.new) conn.new) }
{
    let Want::Look { node } = conn.want() else {
        return Ok(());
    };
    conn.reserve()?;
    let mask = shared.look(conn.current.number, node);
    conn.looked(alloc, Look { node, mask })?;
    draw(conn, rt, alloc, shared, mask)
}

// Draws among the servers of this mask, where the request waits for it.
fn draw<R: Wait, S: Shared>(
    conn: &mut Conn,
    rt: &R,
    alloc: Global,
    shared: &mut S,
    mask: u64,
) -> Result<(), Memory>
    requires attended { IsAttended (S.desk shared.old) conn.old.current.number }
    requires picks { 0 < (S.room shared.old).picks }
    ensures prompt { IsPrompt conn.old → OnOk result (IsPrompt conn.new) }
    ensures went { (s : Seen) (l : Lately) → Linked s conn.old → Went ⊥ (moment s l (S.desk shared.old) conn.old) (moment s l (S.desk shared.new) conn.new) }
{
    let Want::Walk { node } = conn.want() else {
        return Ok(());
    };
    conn.reserve()?;
    match shared.draw(rt, conn.current.number, node, mask) {
        Drawn::Pick(pick) => {
            conn.drew(NodePick { node, pick });
            Ok(())
        }
        // None can be: a request waits for a draw only where its server is up.
        Drawn::NoneUp => Err(AllocError),
        Drawn::Spent => conn.spent(alloc, node),
    }
}
