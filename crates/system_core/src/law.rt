// What every run gives.
ghost use Rattle.std.specs.Prelude.{◌≡◌, ℕ, List, Some, map, slice_get};
ghost use Rattle.conversation.specs.Plans.{Plan};
ghost use Rattle.conn_machine.specs.declared.conn.Conn.{Conn};
ghost use Rattle.conn_machine.specs.Reached.{IsFinished};
ghost use Rattle.system_core.specs.Happens.{Runs};
ghost use Rattle.system_core.specs.Records.{Records, pops};
ghost use Rattle.system_core.specs.Shows.{Lawful, IsServed};
ghost use Rattle.system_core.specs.Tiles.{AreLawful, Tiles, pick_of, picks_at, picks_told};
ghost use Rattle.system_core.specs.declared.event.Event.{Event};
ghost use Rattle.system_core.specs.declared.system.System.{System};

/// Whatever happened, and in whatever order: each connection that has ended and told its notes was served over the
/// published configurations, by what it was told.
pub fn every_interleaving()
    ensures { (first : Plan) (events : List Event) (s : System) (l : Lawful first events s) (i : ℕ) (c : Conn)
        → slice_get s.clients.conns.items i ≡ Some c → IsFinished c → IsServed l.records i c }
{}

/// Whatever connections drew, and in whatever order: the picks at a node of a configuration are lawful, and lie one
/// behind the other without a gap and without an overlap, from the first pop on. They are the picks that connections were
/// told of, each once and in order.
pub fn picks_lie_end_to_end()
    ensures tile { (first : Plan) (events : List Event) (r : Records) → Runs first events r → (number node : ℕ)
        → Tiles 0 (picks_at number node r.picks) (pops number node r.picks) }
    ensures lawful { (first : Plan) (events : List Event) (r : Records) → Runs first events r → (number node : ℕ)
        → AreLawful (picks_at number node r.picks) }
    ensures told { (first : Plan) (events : List Event) (r : Records) → Runs first events r → map pick_of r.picks ≡ picks_told r.told }
{}
