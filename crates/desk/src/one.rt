//! What one thread shares with itself.
ghost use Rattle.std.specs.Prelude.{◌≡◌, ◌<◌, ◌+◌, ◌++◌, ◌∷◌, [], ℕ, List, Some, None, OnOk, OnErr, IfOk};
ghost use Rattle.conversation.specs.Plans.{Plan};
ghost use Rattle.wrr_deadlines.specs.Choice.{Draws};
ghost use Rattle.desk.specs.Desks.{IsAttended, LookDid, DrawDid, Reseated, RoomLeft, Grew, IsLast, seat_at, one_server};
ghost use Rattle.desk.specs.Issues.{issue_plan};
ghost use Rattle.desk.specs.Kept.{desk_of, room_of, newest_plan};

use crate::seats::Seats;
use crate::server::OneServer;
use crate::shared::Shared;
use crate::timeline::Timeline;
use generation::Generation;
use link_world::Look;
use px_base::Memory;
use std::alloc::Global;
use std::sync::{Arc, Wait};
use wrr_deadlines::Drawn;

/// A desk of one thread. Each server counts as up. It holds the newest generation, since no other can be pinned, and a count
/// for each number and node that a pick was made at: looks, picks and pins are a history that contracts alone read. So
/// requests take no memory, at however many nodes.
#[derive(Drop)]
pub struct OneDesk {
    pub(crate) timeline: Timeline,
    pub(crate) seats: Seats,
    pub(crate) server: OneServer,
}

impl OneDesk {
    /// A desk that has seen this generation alone.
    pub fn new(alloc: Global, first: Arc<Generation, Global>) -> Result<OneDesk, Memory>
        ensures generations { IfOk result (λ d. (desk_of d).generations ≡ issue_plan first ∷ []) }
        ensures pins { IfOk result (λ d. (desk_of d).pins ≡ []) }
        ensures attended { IfOk result (λ d. (number : ℕ) → (desk_of d).attended number ≡ None) }
        ensures newest { IfOk result (λ d. newest_plan d ≡ issue_plan first) }
    {
        let server = OneServer::new(alloc)?;
        Ok(OneDesk {
            timeline: Timeline::new(first),
            seats: Seats::new(alloc),
            server,
        })
    }

    /// The number of the last generation. A list that its generations begin with, and that ends with this number, is all of
    /// them.
    pub fn number(&self) -> u64
        ensures number { result ≡ (newest_plan self.now).number }
        ensures all { (plans : List Plan) (p : Plan) → Grew plans (desk_of self.now).generations → IsLast plans p → p.number ≡ result
            → (desk_of self.now).generations ≡ plans }
    {
        self.timeline.newest.issue.number()
    }

    /// Adds the next generation, and lets go of the last one. Its number is one more than that one's.
    pub fn publish(&mut self, issue: Arc<Generation, Global>) -> Result<(), Memory>
        requires next { (issue_plan issue).number ≡ (newest_plan self.old).number + 1 }
        ensures ok { OnOk result (desk_of self.new ≡ record (desk_of self.old) { generations = (desk_of self.old).generations ++ issue_plan issue ∷ [] }) }
        ensures err { OnErr result (desk_of self.new ≡ desk_of self.old) }
        ensures newest { OnOk result (newest_plan self.new ≡ issue_plan issue) }
        ensures kept { OnErr result (newest_plan self.new ≡ newest_plan self.old) }
    {
        self.timeline.publish(issue);
        Ok(())
    }
}

impl Shared for OneDesk {
    ghost desk = { desk_of };

    ghost room = { λ d. room_of d.seats };

    fn pin(&mut self) -> Result<Arc<Generation, Global>, Memory> {
        self.timeline.pin()
    }

    fn attend<R: Wait>(&mut self, rt: &R, issue: &Arc<Generation, Global>) -> Result<(), Memory> {
        let _ = rt;
        self.seats.attend(issue.number())
    }

    fn look(&mut self, number: u64, node: u32) -> u64
        requires attended { IsAttended (desk_of self.old) number }
        requires room { 0 < (room_of self.old.seats).looks }
        ensures looked { LookDid (desk_of self.old) number node result (desk_of self.new) }
        ensures room { RoomLeft (room_of self.old.seats) 1 0 (room_of self.new.seats) }

        // Its server is up.
        ensures up { result ≡ 1 }
    {
        let mask = 1;
        self.seats.look(number, Look { node, mask });
        mask
    }

    fn draw<R: Wait>(&mut self, rt: &R, number: u64, node: u32, mask: u64) -> Drawn
        requires attended { IsAttended (desk_of self.old) number }
        requires room { 0 < (room_of self.old.seats).picks }
        ensures drawn { DrawDid (seat_at (desk_of self.old) number) node mask result (seat_at (desk_of self.new) number) }
        ensures seat { Reseated (desk_of self.old) number (Some (seat_at (desk_of self.new) number)) (desk_of self.new) }
        ensures room { RoomLeft (room_of self.old.seats) 0 1 (room_of self.new.seats) }

        // By the very count that the seat had at the node.
        ensures exact { Draws one_server mask ((seat_at (desk_of self.old) number).count node) result }
    {
        let _ = rt;
        self.seats.draw(&self.server, number, node, mask)
    }

    fn retire(&mut self, number: u64) {
        self.seats.retire(number);
    }
}
