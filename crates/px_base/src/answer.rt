//! What a command answers.
ghost use Rattle.std.specs.Prelude.{◌≡◌, IfOk};

use crate::Memory;
use std::alloc::Global;

/// A status and the text that goes with it.
#[derive(Debug, Drop)]
pub struct Answer {
    pub status: u8,
    pub text: Vec<u8>,
}

/// The answer of this status and this text.
pub fn make_answer(alloc: Global, status: u8, text: &[u8]) -> Result<Answer, Memory>
    ensures { IfOk result (λ a. (a.status ≡ status) × (a.text.items ≡ text.now)) }
{
    let text = Vec::from_slice(alloc, text)?;
    Ok(Answer { status, text })
}
