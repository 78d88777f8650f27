// What a caller of `turn` may do between two turns.
ghost use Rattle.std.specs.Prelude.{ℕ, List, Ok};
ghost use Rattle.conversation.specs.Plans.{Plan};
ghost use Rattle.conn_machine.specs.declared.conn.Conn.{Conn};
ghost use Rattle.desk.specs.Desks.{Grew};
ghost use Rattle.link_world.specs.Seen.{Seen, WaitDid};
ghost use Rattle.slab.specs.Slab.{Slab};
ghost use Rattle.worker_loop.specs.Runs.{Attends};

/// After publications a worker attends its connections as before.
pub fn attends_after_publications()
    ensures { (now : Seen) (f g : List Plan) (conns : Slab Conn) → Grew f g → Attends now f conns → Attends now g conns }
{}

/// And after a wait.
pub fn attends_after_waits()
    ensures { (now new : Seen) (until : ℕ) (g : List Plan) (conns : Slab Conn) → WaitDid now until (Ok tt) new → Attends now g conns → Attends new g conns }
{}
