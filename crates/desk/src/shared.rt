//! What a worker shares.
ghost use Rattle.std.specs.Prelude.{◌≡◌, ◌<◌, Some, MatchResult, OnOk, Contains};
ghost use Rattle.std.specs.Arc.{arc_value};
ghost use Rattle.generation.specs.Meaning.{plan_of};
ghost use Rattle.desk.specs.Desks.{Desk, Room, IsNumbered, Pinned, Refused, Reseated, AttendDid, LookDid, RetireDid, DrawDid, IsAttended, RoomLeft, seat_at};

use generation::Generation;
use px_base::Memory;
use std::alloc::Global;
use std::sync::{Arc, Wait};
use wrr_deadlines::Drawn;

/// What a worker shares with the rest of the program.
pub trait Shared {
    /// What is meant of it: the generations seen, the pins, and a seat for each number that is attended.
    ghost desk: { Self → Desk };

    /// The looks and picks for which it has room.
    ghost room: { Self → Room };

    /// The last of the generations seen, for one request.
    fn pin(&mut self) -> Result<Arc<Generation, Global>, Memory>
        ensures pinned { MatchResult result
            (λ issue. Pinned (desk self.old) (plan_of (arc_value issue)) (desk self.new))
            (λ error. Refused (desk self.old) (desk self.new)) }
        ensures numbered { IsNumbered (desk self.new).generations }
        ensures room { RoomLeft (room self.old) 0 0 (room self.new) };

    /// Takes a seat under the number of a generation that it gave, if it has none, and makes the room for one look and
    /// one pick.
    fn attend<R: Wait>(&mut self, rt: &R, issue: &Arc<Generation, Global>) -> Result<(), Memory>
        requires { Contains (desk self.old).generations (plan_of (arc_value issue.now)) }
        ensures attended { MatchResult result
            (λ done. AttendDid (desk self.old) (plan_of (arc_value issue.now)).number (desk self.new))
            (λ error. desk self.new ≡ desk self.old) }
        ensures made { OnOk result ((0 < (room self.new).looks) × (0 < (room self.new).picks)) }
        ensures room { RoomLeft (room self.old) 0 0 (room self.new) };

    /// Which servers of a balancer are up: bit i is server i's.
    fn look(&mut self, number: u64, node: u32) -> u64
        requires attended { IsAttended (desk self.old) number }
        requires room { 0 < (room self.old).looks }
        ensures looked { LookDid (desk self.old) number node result (desk self.new) }
        ensures room { RoomLeft (room self.old) 1 0 (room self.new) };

    /// The next pop of a child in the mask, at a balancer of one server. `NoneUp` comes exactly where no child of
    /// positive weight is in the mask, and `Spent` exactly where the pops taken and a period more pass 2^62.
    fn draw<R: Wait>(&mut self, rt: &R, number: u64, node: u32, mask: u64) -> Drawn
        requires attended { IsAttended (desk self.old) number }
        requires room { 0 < (room self.old).picks }
        ensures drawn { DrawDid (seat_at (desk self.old) number) node mask result (seat_at (desk self.new) number) }
        ensures seat { Reseated (desk self.old) number (Some (seat_at (desk self.new) number)) (desk self.new) }
        ensures room { RoomLeft (room self.old) 0 1 (room self.new) };

    /// Gives the seat of a number up. Its looks and picks aren't told any more.
    fn retire(&mut self, number: u64)
        ensures retired { RetireDid (desk self.old) number (desk self.new) }
        ensures room { RoomLeft (room self.old) 0 0 (room self.new) };
}
