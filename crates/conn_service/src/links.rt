//! Links are closed once they are of no more use.
ghost use Rattle.std.specs.Prelude.{◌≡◌, ◌↔◌, IsTrue, MatchOption, false};
ghost use Rattle.link_world.specs.Lately.{OnlyAt};
ghost use Rattle.desk.specs.Desks.{Desk};
ghost use Rattle.conn_machine.specs.Reached.{IsOpen};
ghost use Rattle.conn_service.specs.Moments.{moment, IsExchanging, Linked};
ghost use Rattle.conn_service.specs.Went.{Went};
ghost use Rattle.conn_service.specs.Released.{Released, IsServer, OnlyCloses};
ghost use Rattle.conn_service.specs.Farewell.{OnlyTells};

use conn_machine::{Conn, Phase, Stage};
use link_world::World;

/// The link to the server, while the exchange goes on.
pub(crate) fn server_of(conn: &Conn) -> Option<u32>
    ensures { IsServer conn.now result }
{
    match conn.phase {
        Phase::Open => match conn.stage {
            Stage::Exchange => Some(conn.current.link),
            _ => None,
        },
        _ => None,
    }
}

/// Closes a link that was the server's, unless the exchange goes on.
pub(crate) fn release<W: World>(conn: &Conn, world: &mut W, link: u32)
    ensures seen { Released conn.now link (W.seen world.old) (W.seen world.new) }
    ensures lately { OnlyAt link (W.lately world.old) (W.lately world.new) }
    ensures still { IsExchanging conn.now → W.lately world.new ≡ W.lately world.old }
{
    match server_of(conn) {
        Some(_) => {}
        None => world.close(link),
    }
}

/// Closes the client's link, unless the connection is open.
pub(crate) fn hang_up<W: World>(conn: &Conn, world: &mut W)
    requires { Linked (W.seen world.old) conn.now }
    ensures went { (g : Desk) → Went ⊥ (moment (W.seen world.old) (W.lately world.old) g conn.now)
        (moment (W.seen world.new) (W.lately world.new) g conn.now) }
    ensures open { IsOpen conn.now → W.lately world.new ≡ W.lately world.old }
    ensures links { OnlyCloses (W.seen world.old) (W.seen world.new) }
    ensures closed { (IsOpen conn.now → ⊥) → (W.seen world.new).is_open conn.now.client.link ≡ false }
    ensures tells { OnlyTells (W.seen world.old) (W.seen world.new) }
{
    if conn.is_open() {
        return;
    }
    world.close(conn.client.link);
}
