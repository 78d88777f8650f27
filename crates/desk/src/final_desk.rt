//! What one thread shares with itself once nothing more is published.
ghost use Rattle.std.specs.Prelude.{◌≡◌, ◌<◌, [], Contains, List, Some};
ghost use Rattle.conversation.specs.Plans.{Plan};
ghost use Rattle.wrr_deadlines.specs.Choice.{Draws};
ghost use Rattle.desk.specs.Desks.{IsAttended, LookDid, DrawDid, Reseated, RoomLeft, Grew, IsLast, seat_at, one_server};
ghost use Rattle.desk.specs.Kept.{desk_of, room_of, newest_plan};

use crate::one::OneDesk;
use crate::shared::Shared;
use generation::Generation;
use link_world::Look;
use px_base::Memory;
use std::alloc::Global;
use std::sync::{Arc, Wait};
use wrr_deadlines::Drawn;

/// A desk of one thread whose last generation keeps its number: nothing more is published on it, and each pin of it is of
/// that generation.
#[derive(Drop)]
pub struct FinalDesk<const LAST: u64> {
    pub(crate) desk: OneDesk,
    ghost last: { (newest_plan desk).number ≡ LAST },
    ghost pinned: { (p : Plan) → Contains (desk_of desk).pins p → p.number ≡ LAST },
}

impl<const LAST: u64> FinalDesk<LAST> {
    /// The desk, which nothing was pinned of, from now on without publications.
    pub fn new(desk: OneDesk) -> FinalDesk<LAST>
        requires last { (newest_plan desk).number ≡ LAST }
        requires unpinned { (desk_of desk).pins ≡ [] }
        ensures { result.desk ≡ desk }
    {
        FinalDesk { desk }
    }

    /// The desk itself. A list that its generations begin with, and that ends with the fixed number, is all of them.
    pub fn into_desk(self) -> OneDesk
        ensures desk { result ≡ self.entry.desk }
        ensures all { (plans : List Plan) (p : Plan) → Grew plans (desk_of self.entry.desk).generations → IsLast plans p → p.number ≡ LAST
            → (desk_of self.entry.desk).generations ≡ plans }
        ensures pinned { (p : Plan) → Contains (desk_of self.entry.desk).pins p → p.number ≡ LAST }
    {
        let FinalDesk { desk, .. } = self;
        desk
    }
}

impl<const LAST: u64> Shared for FinalDesk<LAST> {
    ghost desk = { λ d. desk_of d.desk };

    ghost room = { λ d. room_of d.desk.seats };

    fn pin(&mut self) -> Result<Arc<Generation, Global>, Memory> {
        self.desk.timeline.pin()
    }

    fn attend<R: Wait>(&mut self, rt: &R, issue: &Arc<Generation, Global>) -> Result<(), Memory> {
        let _ = rt;
        self.desk.seats.attend(issue.number())
    }

    fn look(&mut self, number: u64, node: u32) -> u64
        requires attended { IsAttended (desk_of self.old.desk) number }
        requires room { 0 < (room_of self.old.desk.seats).looks }
        ensures looked { LookDid (desk_of self.old.desk) number node result (desk_of self.new.desk) }
        ensures room { RoomLeft (room_of self.old.desk.seats) 1 0 (room_of self.new.desk.seats) }

        // Its server is up.
        ensures up { result ≡ 1 }
    {
        let mask = 1;
        self.desk.seats.look(number, Look { node, mask });
        mask
    }

    fn draw<R: Wait>(&mut self, rt: &R, number: u64, node: u32, mask: u64) -> Drawn
        requires attended { IsAttended (desk_of self.old.desk) number }
        requires room { 0 < (room_of self.old.desk.seats).picks }
        ensures drawn { DrawDid (seat_at (desk_of self.old.desk) number) node mask result (seat_at (desk_of self.new.desk) number) }
        ensures seat { Reseated (desk_of self.old.desk) number (Some (seat_at (desk_of self.new.desk) number)) (desk_of self.new.desk) }
        ensures room { RoomLeft (room_of self.old.desk.seats) 0 1 (room_of self.new.desk.seats) }

        // By the very count that the seat had at the node.
        ensures exact { Draws one_server mask ((seat_at (desk_of self.old.desk) number).count node) result }
    {
        let _ = rt;
        self.desk.seats.draw(&self.desk.server, number, node, mask)
    }

    fn retire(&mut self, number: u64) {
        self.desk.seats.retire(number);
    }
}
