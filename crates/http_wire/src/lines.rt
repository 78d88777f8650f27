//! Field lines of a message, all in one text (RFC 9112 section 5).
ghost use Rattle.std.specs.Prelude.{◌≡◌, ◌+◌, ◌<◌, ◌≤◌, ◌↔◌, [], ◌∷◌, ◌++◌, Some, IsTrue, IfOk, IfSome, OnOk, OnErr, codes, length};
ghost use Rattle.std.specs.Option.{ForSome};
ghost use Rattle.httparse.specs.Spans.{IsHeaderWithin, header_bytes, span_bytes};
ghost use Rattle.head_view.specs.Lines.{lines_at};
ghost use Rattle.http_wire.specs.Lines.{AreSpelled, Keeps, crlf, field_text, fields_text, span_at};

mod edits;

use httparse::spans::{HeaderSpan, Span};
use px_base::Memory;
use std::alloc::{AllocError, Global};
use std::marker::Model;

/// Field lines in order, in one text as they are spelled: of each its name, a colon, a space, its value and a line
/// end.
///
/// Contracts see the list of the names and the values.
#[derive(Debug, Drop)]
pub struct FieldLines {
    text: Vec<u8>,
    spans: Vec<HeaderSpan>,
}

impl Model for FieldLines {
    ghost use Rattle.std.specs.Prelude.{List};
    ghost use Rattle.head_view.specs.Lines.{Line as Field, lines_at};
    ghost use Rattle.http_wire.specs.Lines.{AreSpelled};

    ghost Value = { List Field };

    ghost view = { λ l. lines_at l.text.items l.spans.items };

    ghost invariant = { λ l. AreSpelled l.text.items l.spans.items };
}

impl FieldLines {
    /// No lines. They take no memory until one is added.
    pub fn new(alloc: Global) -> FieldLines
        ensures { result ≡ [] }
    {
        FieldLines {
            text: Vec::new(alloc),
            spans: Vec::new(alloc),
        }
    }

    /// No lines, with room for so many lines of so many bytes together.
    pub fn with_capacity(alloc: Global, lines: usize, bytes: usize) -> Result<FieldLines, Memory>
        ensures { IfOk result (λ none. none ≡ []) }
    {
        let text = Vec::with_capacity(alloc, bytes)?;
        let spans = Vec::with_capacity(alloc, lines)?;
        Ok(FieldLines { text, spans })
    }

    /// The lines as they are spelled, one behind the other.
    pub fn text(&self) -> &[u8]
        ensures { result.now ≡ fields_text self.now }
    {
        self.text.as_slice()
    }

    /// Adds a line at the end. Where memory runs out the lines stay as they were.
    pub fn push(&mut self, name: &[u8], value: &[u8]) -> Result<(), Memory>
        ensures ok { OnOk result (self.new ≡ self.old ++ (name.now, value.now) ∷ []) }
        ensures err { OnErr result (self.new ≡ self.old) }
    {
        add_field(&mut self.text, &mut self.spans, name, value, None)
    }

    /// Adds a line that is spelled so. Where memory runs out the lines stay as they were.
    pub(crate) fn push_whole(
        &mut self,
        whole: &[u8],
        name: &[u8],
        value: &[u8],
    ) -> Result<(), Memory>
        requires { whole.now ≡ field_text name.now value.now }
        ensures ok { OnOk result (self.new ≡ self.old ++ (name.now, value.now) ∷ []) }
        ensures err { OnErr result (self.new ≡ self.old) }
    {
        add_field(&mut self.text, &mut self.spans, name, value, Some(whole))
    }

    /// Adds a line of the head in `buf`. Where memory runs out the lines stay as they were.
    ///
    /// A line that is spelled there as it is spelled here is copied at once.
    pub(crate) fn push_line(&mut self, buf: &[u8], line: &HeaderSpan) -> Result<(), Memory>
        requires { IsHeaderWithin (length buf.now) line.now }
        ensures ok { OnOk result (self.new ≡ self.old ++ header_bytes buf.now line.now ∷ []) }
        ensures err { OnErr result (self.new ≡ self.old) }
    {
        let whole = spelled_at(buf, line);
        add_field(
            &mut self.text,
            &mut self.spans,
            line.name.of(buf),
            line.value.of(buf),
            whole,
        )
    }
}

/// How many bytes these lines of a head take there together.
pub(crate) fn room_of(lines: &[HeaderSpan]) -> usize {
    match (lines.first(), lines.last()) {
        (Some(first), Some(last)) => last
            .value
            .end
            .saturating_add(2)
            .saturating_sub(first.name.start),
        _ => 0,
    }
}

// The bytes of a line with its end, where a colon and a space stand between its name and its value, and CR LF behind
// them.
fn spelled_at<'a>(buf: &'a [u8], line: &HeaderSpan) -> Option<&'a [u8]>
    requires { IsHeaderWithin (length buf.now) line.now }
    ensures { IfSome result (λ whole. whole.now ≡ field_text (span_bytes buf.now line.now.name) (span_bytes buf.now line.now.value)) }
{
    let name = line.name;
    let value = line.value;
    if name.end > value.start || buf.len() - value.end < 2 {
        return None;
    }
    let end = value.end + 2;
    if is_gap(&buf[name.end..value.start]) && is_line_end(&buf[value.end..end]) {
        Some(&buf[name.start..end])
    } else {
        None
    }
}

fn is_gap(text: &[u8]) -> bool
    ensures { IsTrue result ↔ (text.now ≡ codes ": ") }
{
    matches!(text, [b':', b' '])
}

fn is_line_end(text: &[u8]) -> bool
    ensures { IsTrue result ↔ (text.now ≡ crlf) }
{
    matches!(text, [b'\r', b'\n'])
}

// Adds a line, whose spelling is `whole` where that stands in one piece. Where memory runs out the lines stay as they
// were.
fn add_field(
    text: &mut Vec<u8>,
    spans: &mut Vec<HeaderSpan>,
    name: &[u8],
    value: &[u8],
    whole: Option<&[u8]>,
) -> Result<(), Memory>
    requires spelled { AreSpelled text.old.items spans.old.items }
    requires whole { ForSome whole (λ whole. whole.now ≡ field_text name.now value.now) }
    ensures spelled { AreSpelled text.new.items spans.new.items }
    ensures ok { OnOk result (lines_at text.new.items spans.new.items
        ≡ lines_at text.old.items spans.old.items ++ (name.now, value.now) ∷ []) }
    ensures err { OnErr result (lines_at text.new.items spans.new.items ≡ lines_at text.old.items spans.old.items) }
{
    let at = text.as_slice().len();
    match push_field(text, spans, name, value, whole) {
        Ok(()) => Ok(()),
        Err(AllocError) => {
            text.truncate(at);
            Err(AllocError)
        }
    }
}

// Appends a line. Where memory runs out a part may stand at the end of the text.
fn push_field(
    text: &mut Vec<u8>,
    spans: &mut Vec<HeaderSpan>,
    name: &[u8],
    value: &[u8],
    whole: Option<&[u8]>,
) -> Result<(), Memory>
    requires { ForSome whole (λ whole. whole.now ≡ field_text name.now value.now) }
    ensures text { OnOk result (text.new.items ≡ text.old.items ++ field_text name.now value.now) }
    ensures spans { OnOk result (spans.new.items ≡ spans.old.items ++ span_at (length text.old.items) (length name.now) (length value.now) ∷ []) }
    ensures err { OnErr result (Keeps text.old.items text.new.items × (spans.new.items ≡ spans.old.items)) }
{
    let at = text.as_slice().len();
    push_spelling(name, value, whole, text)?;
    let all = text.as_slice().len();
    spans.push(span_of(at, name.len(), value.len(), all))?;
    Ok(())
}

// Appends the spelling of a line. Where memory runs out a part may stand at the end.
fn push_spelling(
    name: &[u8],
    value: &[u8],
    whole: Option<&[u8]>,
    out: &mut Vec<u8>,
) -> Result<(), Memory>
    requires { ForSome whole (λ whole. whole.now ≡ field_text name.now value.now) }
    ensures ok { OnOk result (out.new.items ≡ out.old.items ++ field_text name.now value.now) }
    ensures err { OnErr result (Keeps out.old.items out.new.items) }
{
    match whole {
        Some(whole) => out.extend_from_slice(whole),
        None => push_parts(name, value, out),
    }
}

// Where a line lies that is spelled at this place, in a text of `all` bytes.
fn span_of(at: usize, name: usize, value: usize, all: usize) -> HeaderSpan
    requires { at + name + 2 + value ≤ all }
    ensures { result ≡ span_at at name value }
{
    let start = at + name + 2;
    HeaderSpan {
        name: Span {
            start: at,
            end: at + name,
        },
        value: Span {
            start,
            end: start + value,
        },
    }
}

// Appends the parts of a line. Where memory runs out some may stand at the end.
#[tactic(auto, using(std::proofs::Common::append_assoc))]
fn push_parts(name: &[u8], value: &[u8], out: &mut Vec<u8>) -> Result<(), Memory>
    ensures ok { OnOk result (out.new.items ≡ out.old.items ++ field_text name.now value.now) }
    ensures err { OnErr result (Keeps out.old.items out.new.items) }
{
    out.extend_from_slice(name)?;
    out.extend_from_slice(b": ")?;
    out.extend_from_slice(value)?;
    out.extend_from_slice(b"\r\n")
}
