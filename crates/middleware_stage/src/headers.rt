//! Lines that a middleware sets and removes.
ghost use Rattle.std.specs.Prelude.{◌≡◌, ◌==◌, OnOk, IfOk, codes};
ghost use Rattle.middleware_stage.specs.Effects.{with_header, with_headers, with_line, with_lines};

use http_wire::{FieldLines, Request};
use px_base::{Bytes, List, Memory, fold_equal};
use std::alloc::Global;

/// The request with its lines set and removed so.
pub(crate) fn change_request(
    alloc: Global,
    changes: &List<(Bytes, Bytes)>,
    request: Request,
) -> Result<Request, Memory>
    ensures { IfOk result (λ changed. changed ≡ with_headers changes.now request) }
{
    let mut changed = request;
    for change in changes.as_slice() {
        change_header(alloc, change, &mut changed)?;
    }
    Ok(changed)
}

// Sets or removes one line, or sets the host text.
fn change_header(
    alloc: Global,
    change: &(Bytes, Bytes),
    request: &mut Request,
) -> Result<(), Memory>
    ensures { OnOk result (request.new ≡ with_header request.old change.now) }
{
    if fold_equal(change.0.as_slice(), b"Host") {
        request.host = Bytes::from_slice(alloc, change.1.as_slice())?;
        Ok(())
    } else {
        change_line(change, &mut request.lines)
    }
}

/// The lines, set and removed so.
pub(crate) fn change_lines(
    changes: &List<(Bytes, Bytes)>,
    lines: &mut FieldLines,
) -> Result<(), Memory>
    ensures { OnOk result (lines.new ≡ with_lines changes.now lines.old) }
{
    for change in changes.as_slice() {
        change_line(change, lines)?;
    }
    Ok(())
}

// Sets a line, or removes it where its value is empty.
fn change_line(change: &(Bytes, Bytes), lines: &mut FieldLines) -> Result<(), Memory>
    ensures { OnOk result (lines.new ≡ with_line lines.old change.now) }
{
    if change.1.as_slice().is_empty() {
        lines.remove(change.0.as_slice());
        Ok(())
    } else {
        lines.set(change.0.as_slice(), change.1.as_slice())
    }
}
