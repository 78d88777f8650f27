//! Copies of lists of bytes.
ghost use Rattle.std.specs.Prelude.{◌≡◌, IfOk};

use px_base::{Bytes, List, Memory};
use std::alloc::Global;

pub(crate) fn copied(alloc: Global, bytes: &Bytes) -> Result<Bytes, Memory>
    ensures { IfOk result (λ copy. copy ≡ bytes.now) }
{
    Bytes::from_slice(alloc, bytes.as_slice())
}

pub(crate) fn copied_texts(alloc: Global, texts: &List<Bytes>) -> Result<List<Bytes>, Memory>
    ensures { IfOk result (λ copy. copy ≡ texts.now) }
{
    let mut copies = List::new(alloc);
    for text in texts.as_slice() {
        copies.push(copied(alloc, text)?)?;
    }
    Ok(copies)
}

pub(crate) fn copied_lines(
    alloc: Global,
    lines: &List<(Bytes, Bytes)>,
) -> Result<List<(Bytes, Bytes)>, Memory>
    ensures { IfOk result (λ copy. copy ≡ lines.now) }
{
    let mut copies = List::new(alloc);
    for line in lines.as_slice() {
        copies.push(copied_line(alloc, line)?)?;
    }
    Ok(copies)
}

fn copied_line(alloc: Global, line: &(Bytes, Bytes)) -> Result<(Bytes, Bytes), Memory>
    ensures { IfOk result (λ copy. copy ≡ line.now) }
{
    let name = copied(alloc, &line.0)?;
    let value = copied(alloc, &line.1)?;
    Ok((name, value))
}
