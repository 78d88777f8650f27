//! The text of a note: one line of the access file.
ghost use Rattle.std.specs.Prelude.{◌≡◌, ◌++◌, OnOk, OnErr, IfOk, codes};
ghost use Rattle.std.specs.Fmt.{decimal};
ghost use Rattle.link_world.specs.NoteText.{note_line, body_text, answer_text, walk_text, row_text, cause_text, fault_text, end_text};

use crate::note::{Cause, EndCause, HeadName, Note, NoteBody, RequestNote};
use crate::shown::push_joined;
use px_base::{Memory, print_decimal};
use std::alloc::Global;

/// Appends the text of a note. Where memory runs out nothing is appended.
pub fn note_text(alloc: Global, note: &Note, out: &mut Vec<u8>) -> Result<(), Memory>
    ensures ok { OnOk result (out.new.items ≡ out.old.items ++ note_line note.now) }
    ensures err { OnErr result (out.new.items ≡ out.old.items) }
{
    let line = line_of(alloc, note)?;
    out.extend_from_slice(line.as_slice())
}

fn line_of(alloc: Global, note: &Note) -> Result<Vec<u8>, Memory>
    ensures { IfOk result (λ line. line.items ≡ note_line note.now) }
{
    let body = body_of(alloc, &note.body)?;
    let mut line = Vec::from_slice(alloc, b"note ")?;
    print_decimal(note.link as u64, &mut line)?;
    line.extend_from_slice(b" ")?;
    line.extend_from_slice(body.as_slice())?;
    line.extend_from_slice(b"\n")?;
    Ok(line)
}

fn body_of(alloc: Global, body: &NoteBody) -> Result<Vec<u8>, Memory>
    ensures { IfOk result (λ text. text.items ≡ body_text body.now) }
{
    match body {
        NoteBody::Request(request) => request_of(alloc, request),
        NoteBody::End(cause) => end_of(alloc, *cause),
    }
}

fn request_of(alloc: Global, request: &RequestNote) -> Result<Vec<u8>, Memory>
    ensures { IfOk result (λ text. text.items ≡ answer_text request.now ++ walk_text request.now) }
{
    let walk = walk_of(alloc, request)?;
    let mut text = answer_of(alloc, request)?;
    text.extend_from_slice(walk.as_slice())?;
    Ok(text)
}

fn answer_of(alloc: Global, request: &RequestNote) -> Result<Vec<u8>, Memory>
    ensures { IfOk result (λ text. text.items ≡ answer_text request.now) }
{
    let cause = cause_of(alloc, request.cause)?;
    let row = row_of(alloc, request.router)?;
    let mut text = Vec::new(alloc);
    print_decimal(request.index as u64, &mut text)?;
    text.extend_from_slice(b" gen ")?;
    print_decimal(request.generation, &mut text)?;
    text.extend_from_slice(b" router ")?;
    text.extend_from_slice(row.as_slice())?;
    text.extend_from_slice(b" status ")?;
    print_decimal(request.status as u64, &mut text)?;
    text.extend_from_slice(b" ")?;
    text.extend_from_slice(cause.as_slice())?;
    Ok(text)
}

fn walk_of(alloc: Global, request: &RequestNote) -> Result<Vec<u8>, Memory>
    ensures { IfOk result (λ text. text.items ≡ walk_text request.now) }
{
    let mut text = Vec::from_slice(alloc, b" looks ")?;
    push_joined(request.looks.as_slice(), &mut text)?;
    text.extend_from_slice(b" picks ")?;
    push_joined(request.picks.as_slice(), &mut text)?;
    text.extend_from_slice(b" turns ")?;
    push_joined(request.turns.as_slice(), &mut text)?;
    text.extend_from_slice(b" backs ")?;
    push_joined(request.backs.as_slice(), &mut text)?;
    Ok(text)
}

fn row_of(alloc: Global, router: Option<u32>) -> Result<Vec<u8>, Memory>
    ensures { IfOk result (λ text. text.items ≡ row_text router) }
{
    match router {
        Some(row) => digits_of(alloc, row as u64),
        None => Vec::from_slice(alloc, b"-"),
    }
}

fn cause_of(alloc: Global, cause: Cause) -> Result<Vec<u8>, Memory>
    ensures { IfOk result (λ text. text.items ≡ cause_text cause) }
{
    match cause {
        Cause::Passed => Vec::from_slice(alloc, b"Passed"),
        Cause::Undecided => Vec::from_slice(alloc, b"Undecided"),
        Cause::Head(fault) => Vec::from_slice(alloc, fault_name(fault)),
        Cause::HeadTooLarge => Vec::from_slice(alloc, b"HeadTooLarge"),
        Cause::NoRouter => Vec::from_slice(alloc, b"NoRouter"),
        Cause::Stopped { place } => with_number(alloc, b"Stopped ", place as u64),
        Cause::BodyTooLarge => Vec::from_slice(alloc, b"BodyTooLarge"),
        Cause::NoChild => Vec::from_slice(alloc, b"NoChild"),
        Cause::Spent { node } => with_number(alloc, b"Spent ", node as u64),
        Cause::BackFailed { link } => with_number(alloc, b"BackFailed ", link as u64),
        Cause::BackBad { link } => with_number(alloc, b"BackBad ", link as u64),
        Cause::BackLate { link, base, now } => late_of(alloc, link, base, now),
    }
}

fn fault_name(fault: HeadName) -> &'static [u8]
    ensures { result.now ≡ fault_text fault }
{
    match fault {
        HeadName::BadHead => b"BadHead",
        HeadName::NoHost => b"NoHost",
        HeadName::TwoHosts => b"TwoHosts",
        HeadName::BadLength => b"BadLength",
        HeadName::BothLengths => b"BothLengths",
        HeadName::BadCoding => b"BadCoding",
        HeadName::BadTarget => b"BadTarget",
        HeadName::BadEscape => b"BadEscape",
    }
}

fn late_of(alloc: Global, link: u32, base: u64, now: u64) -> Result<Vec<u8>, Memory>
    ensures { IfOk result (λ text. text.items ≡ codes "BackLate " ++ decimal link ++ codes " " ++ decimal base ++ codes " " ++ decimal now) }
{
    let mut text = with_number(alloc, b"BackLate ", link as u64)?;
    text.extend_from_slice(b" ")?;
    print_decimal(base, &mut text)?;
    text.extend_from_slice(b" ")?;
    print_decimal(now, &mut text)?;
    Ok(text)
}

fn end_of(alloc: Global, cause: EndCause) -> Result<Vec<u8>, Memory>
    ensures { IfOk result (λ text. text.items ≡ codes "end " ++ end_text cause) }
{
    let name = end_name(alloc, cause)?;
    let mut text = Vec::from_slice(alloc, b"end ")?;
    text.extend_from_slice(name.as_slice())?;
    Ok(text)
}

fn end_name(alloc: Global, cause: EndCause) -> Result<Vec<u8>, Memory>
    ensures { IfOk result (λ text. text.items ≡ end_text cause) }
{
    match cause {
        EndCause::Client => Vec::from_slice(alloc, b"Client"),
        EndCause::ClientFailed => Vec::from_slice(alloc, b"ClientFailed"),
        EndCause::Asked => Vec::from_slice(alloc, b"Asked"),
        EndCause::Refused => Vec::from_slice(alloc, b"Refused"),
        EndCause::Unread => Vec::from_slice(alloc, b"Unread"),
        EndCause::Idle { base, now } => between(alloc, b"Idle ", base, now),
        EndCause::Count => Vec::from_slice(alloc, b"Count"),
        EndCause::Cut { link } => with_number(alloc, b"Cut ", link as u64),
        EndCause::CutLate { base, now } => between(alloc, b"Cut ", base, now),
        EndCause::Stopped => Vec::from_slice(alloc, b"Stopped"),
        EndCause::Memory => Vec::from_slice(alloc, b"Memory"),
    }
}

// A name and two moments.
fn between(alloc: Global, name: &[u8], base: u64, now: u64) -> Result<Vec<u8>, Memory>
    ensures { IfOk result (λ text. text.items ≡ name.now ++ decimal base ++ codes " " ++ decimal now) }
{
    let mut text = with_number(alloc, name, base)?;
    text.extend_from_slice(b" ")?;
    print_decimal(now, &mut text)?;
    Ok(text)
}

// A name and a number.
fn with_number(alloc: Global, name: &[u8], number: u64) -> Result<Vec<u8>, Memory>
    ensures { IfOk result (λ text. text.items ≡ name.now ++ decimal number) }
{
    let mut text = Vec::from_slice(alloc, name)?;
    print_decimal(number, &mut text)?;
    Ok(text)
}

fn digits_of(alloc: Global, number: u64) -> Result<Vec<u8>, Memory>
    ensures { IfOk result (λ text. text.items ≡ decimal number) }
{
    let mut text = Vec::new(alloc);
    print_decimal(number, &mut text)?;
    Ok(text)
}
