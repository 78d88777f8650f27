//! Reads a body piece by piece: what of a piece is content, and where the body ends.
ghost use Rattle.std.specs.Prelude.{◌≡◌, ◌≢◌, ℕ, List, ◌↔◌, IsTrue};
ghost use Rattle.body_codec.specs.Grammar.{IsBody};
ghost use Rattle.body_codec.specs.Reading.{start, run, content, may_end, IsPhase};
ghost use Rattle.body_codec.specs.Feeding.{Fed, FedBody, Framed, ContentTo};

use crate::phases::Phase;
use std::marker::Model;

/// How a message's body ends (RFC 9112, section 6.3).
#[derive(Clone, Copy, Debug, PartialEq, Eq)]
pub enum Framing {
    /// There is no body.
    None,
    /// After so many bytes.
    Length(u64),
    /// With the last chunk and its trailers.
    Chunked,
    /// With the link.
    ToEnd,
}

/// What a piece gave.
#[derive(Clone, Copy, Debug, PartialEq, Eq)]
pub enum BodyStep {
    /// The first `used` bytes of the piece were taken. Of them the `len` bytes from `from` on are
    /// content, and the rest is framing. `done` says that the body ends with them.
    Took {
        used: usize,
        from: usize,
        len: usize,
        done: bool,
    },
    /// The byte at this place is the first with which no body continues.
    Bad {
        at: usize,
    },
}

/// The reader of one body.
#[derive(Clone, Copy)]
pub struct Body {
    phase: Phase,
}

impl Model for Body {
    ghost use Rattle.body_codec.specs.Reading.{IsPhase};
    ghost use Rattle.body_codec.specs.declared.phases.Phase.{Phase};

    ghost Value = { Phase };

    ghost view = { λ b. b.phase };

    ghost inverse = { λ phase. record { phase = phase } };

    ghost invariant = { λ b. IsPhase b.phase };
}

impl Body {
    /// A reader at the begin of a body.
    pub fn new(framing: Framing) -> Body
        ensures { result ≡ start framing }
    {
        let phase = match framing {
            Framing::None | Framing::Length(0) => Phase::Done,
            Framing::Length(left) => Phase::Length { left },
            Framing::Chunked => Phase::Size { digits: 0, size: 0 },
            Framing::ToEnd => Phase::ToEnd,
        };
        Body { phase }
    }

    /// Takes bytes of the piece: framing up to content, and the content that is there. It may stop
    /// before the piece ends, so it is called again with what is left until the body is done. A body
    /// that is done takes nothing more. It takes no memory, and looks at no byte of content.
    pub fn feed(&mut self, piece: &[u8]) -> BodyStep
        ensures fed { Fed self.old piece.now result self.new }
        // Once bad it stays so, and each call says so at once.
        ensures bad { self.old ≡ Phase.Bad → result ≡ BodyStep.Bad 0 }
        // The same in the words of the grammar, whatever bytes of the body came before.
        ensures grammar { (framing : Framing) (seen : List ℕ) →
            run (start framing) seen ≡ self.old → FedBody framing seen piece.now result }
    {
        if let Phase::Bad = self.phase {
            return BodyStep::Bad { at: 0 };
        }
        match skip_framing(self.phase, piece) {
            Ok(reached) => {
                let taken = take_content(reached.phase, &piece[reached.at..]);
                self.phase = taken.phase;
                BodyStep::Took {
                    used: reached.at + taken.at,
                    from: reached.at,
                    len: taken.at,
                    done: taken.phase.is_done(),
                }
            }
            Err(at) => {
                self.phase = Phase::Bad;
                BodyStep::Bad { at }
            }
        }
    }

    /// Whether the link's end here leaves the body whole.
    pub fn ends_here(&self) -> bool
        ensures value { result ≡ may_end self.now }
        // The same in the words of the grammar: the bytes that came are a whole body.
        ensures grammar { (framing : Framing) (seen : List ℕ) →
            run (start framing) seen ≡ self.now →
            (IsTrue result ↔ IsBody framing seen (content (start framing) seen)) }
    {
        self.phase.may_end()
    }
}

/// A place in a piece, and the phase there.
#[derive(Clone, Copy)]
struct Reached {
    at: usize,
    phase: Phase,
}

/// Goes over framing up to content, the body's end or the piece's end. An error is the place of
/// the first byte that is bad.
#[tactic(auto, using(crate::proofs::Runs::run_more, crate::proofs::Runs::framing_more))]
fn skip_framing(old: Phase, piece: &[u8]) -> Result<Reached, usize>
    requires valid { IsPhase old }
    requires good { old ≢ Phase.Bad }
    ensures { Framed old piece.now result }
{
    let mut phase = old;
    for (at, byte) in piece.iter().enumerate() {
        if !phase.is_framing() {
            return Ok(Reached { at, phase });
        }
        let next = phase.after(*byte);
        if let Phase::Bad = next {
            return Err(at);
        }
        phase = next;
    }
    Ok(Reached {
        at: piece.len(),
        phase,
    })
}

/// Takes the content that is there, by its bounds alone.
fn take_content(old: Phase, rest: &[u8]) -> Reached
    requires valid { IsPhase old }
    requires good { old ≢ Phase.Bad }
    ensures { ContentTo old rest.now result.at result.phase }
{
    match old {
        Phase::Length { left } => take_length(left, rest),
        Phase::Data { left } => take_data(left, rest),
        Phase::ToEnd => Reached {
            at: rest.len(),
            phase: old,
        },
        _ => Reached { at: 0, phase: old },
    }
}

/// Takes content of a body of a known length.
#[tactic(auto, using(crate::proofs::Runs::length_all, crate::proofs::Runs::length_part))]
fn take_length(left: u64, rest: &[u8]) -> Reached
    requires { IsPhase (Phase.Length left) }
    ensures { ContentTo (Phase.Length left) rest.now result.at result.phase }
{
    if left <= rest.len() as u64 {
        Reached {
            at: left as usize,
            phase: Phase::Done,
        }
    } else {
        Reached {
            at: rest.len(),
            phase: Phase::Length {
                left: left - rest.len() as u64,
            },
        }
    }
}

/// Takes content of a chunk.
#[tactic(auto, using(crate::proofs::Runs::data_all, crate::proofs::Runs::data_part))]
fn take_data(left: u64, rest: &[u8]) -> Reached
    requires { IsPhase (Phase.Data left) }
    ensures { ContentTo (Phase.Data left) rest.now result.at result.phase }
{
    if left <= rest.len() as u64 {
        Reached {
            at: left as usize,
            phase: Phase::DataCr,
        }
    } else {
        Reached {
            at: rest.len(),
            phase: Phase::Data {
                left: left - rest.len() as u64,
            },
        }
    }
}
