//! What is meant of each link of a world in memory.
ghost use Rattle.std.specs.Prelude.{◌≡◌, ◌+◌, true, false, cond, map, IfSome, IfNone};
ghost use Rattle.memory_world.specs.Marks.{blank, has, mark_of, IsFirst, Put, open_count, after_read, after_write, after_fault, after_close, after_wait};

/// A link: its faults, whether it is open, and what was asked of it since the last wait.
#[derive(Clone, Copy)]
pub(crate) struct Mark {
    pub link: u32,
    pub faults: u64,
    pub is_open: bool,
    /// It was dialled by a call that was to fail.
    pub is_dead: bool,
    pub reads: u64,
    pub read_quiet: bool,
    pub write_quiet: bool,
    pub read_was_quiet: bool,
    pub write_was_quiet: bool,
}

impl Mark {
    /// A link that came.
    pub fn new(link: u32, is_dead: bool) -> Mark
        ensures { result ≡ record blank { link = link; is_open = true; is_dead = is_dead } }
    {
        Mark {
            link,
            faults: 0,
            is_open: true,
            is_dead,
            reads: 0,
            read_quiet: false,
            write_quiet: false,
            read_was_quiet: false,
            write_was_quiet: false,
        }
    }

    pub fn read(self, quiet: bool) -> Mark
        ensures { result ≡ after_read self quiet }
    {
        Mark {
            reads: self.reads.saturating_add(1),
            read_quiet: quiet,
            ..self
        }
    }

    pub fn written(self, quiet: bool) -> Mark
        ensures { result ≡ after_write self quiet }
    {
        Mark {
            write_quiet: quiet,
            ..self
        }
    }

    pub fn failed(self) -> Mark
        ensures { result ≡ after_fault self }
    {
        Mark {
            faults: self.faults.saturating_add(1),
            ..self
        }
    }

    pub fn closed(self) -> Mark
        ensures { result ≡ after_close self }
    {
        Mark {
            is_open: false,
            ..self
        }
    }

    pub fn begun(self) -> Mark
        ensures { result ≡ after_wait self }
    {
        Mark {
            reads: 0,
            read_quiet: false,
            write_quiet: false,
            read_was_quiet: self.read_quiet,
            write_was_quiet: self.write_quiet,
            ..self
        }
    }
}

/// The first place of the link.
pub(crate) fn find(marks: &[Mark], link: u32) -> Option<usize>
    ensures first { IfSome result (IsFirst marks.now link) }
    ensures none { IfNone result (has marks.now link ≡ false) }
{
    for (at, mark) in marks.iter().enumerate() {
        if mark.link == link {
            return Some(at);
        }
    }
    None
}

/// What stands at the first place of the link.
pub(crate) fn mark_at(marks: &[Mark], at: usize, link: u32) -> Mark
    requires { IsFirst marks.now link at }
    ensures mark { result ≡ mark_of marks.now link }
    ensures link { result.link ≡ link }
{
    marks[at]
}

/// Puts this at the first place of its link.
pub(crate) fn put_mark(marks: &mut Vec<Mark>, at: usize, mark: Mark)
    requires { IsFirst marks.old.items mark.link at }
    ensures put { Put marks.old.items mark.link mark marks.new.items }
    ensures count { open_count marks.new.items + cond (mark_of marks.old.items mark.link).is_open 1 0
        ≡ open_count marks.old.items + cond mark.is_open 1 0 }
{
    marks[at] = mark;
}

/// Each link as it is after a wait.
pub(crate) fn begin_all(marks: &mut Vec<Mark>)
    ensures { marks.new.items ≡ map after_wait marks.old.items }
{
    for at in 0..marks.len() {
        marks[at] = marks[at].begun();
    }
}
