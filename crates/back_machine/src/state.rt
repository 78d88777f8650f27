//! Where an exchange stands.
ghost use Rattle.std.specs.Prelude.{◌≡◌, ◌↔◌, IsTrue};
ghost use Rattle.back_machine.specs.Exchanges.{IsOpen, broken_by};

/// Why an exchange gives no whole reply.
#[derive(Clone, Copy, Debug, PartialEq, Eq)]
pub enum BackCause {
    /// The link failed.
    Failed,
    /// What came is no reply that is taken, whatever follows.
    Bad,
    /// The link ended before the reply was whole.
    Ended,
}

/// Where an exchange stands.
#[derive(Clone, Copy, Debug, PartialEq, Eq)]
pub enum BackState {
    /// The head of the reply isn't whole.
    Waiting,
    /// The head is whole, and the content isn't.
    HeadRead,
    /// The reply is whole.
    Done,
    /// There will be no whole reply.
    Broken(BackCause),
}

impl BackState {
    /// Whether bytes may come.
    pub fn is_open(&self) -> bool
        ensures { IsTrue result ↔ IsOpen self.now }
    {
        matches!(self, BackState::Waiting | BackState::HeadRead)
    }

    // What the link's end or its fault makes of the state.
    pub(crate) fn broken_by(self, cause: BackCause) -> BackState
        ensures { result ≡ broken_by cause self }
    {
        match self {
            BackState::Waiting => BackState::Broken(cause),
            BackState::HeadRead => BackState::Broken(cause),
            BackState::Done => BackState::Done,
            BackState::Broken(first) => BackState::Broken(first),
        }
    }
}
