//! Lines that are set, removed and looked up by their names.
ghost use Rattle.std.specs.Prelude.{◌≡◌, ◌+◌, ◌-◌, ◌^◌, ◌<◌, ◌≤◌, ◌++◌, ◌∷◌, [], List, IfSome, OnOk, OnErr, length, take, drop, remove, option_map, vec_len};
ghost use Rattle.std.specs.List.{position};
ghost use Rattle.head_view.specs.Lines.{AreWithin, Line as Field, has_name, lines_at};
ghost use Rattle.http_wire.specs.Edits.{first_in, set_in, without};
ghost use Rattle.http_wire.specs.Laid.{laid, line_length, spelled_total, turned};
ghost use Rattle.http_wire.specs.Lines.{AreSpelled};

use super::{FieldLines, span_of};
use crate::fields::is_named;
use httparse::spans::{HeaderSpan, Span};
use px_base::Memory;

impl FieldLines {
    /// The value of the first line of this name.
    pub fn first(&self, name: &[u8]) -> Option<&[u8]>
        ensures { option_map (λ value. value.now) result ≡ first_in name.now self.now }
    {
        let at = place_of(self.text.as_slice(), self.spans.as_slice(), name)?;
        Some(self.spans[at].value.of(self.text.as_slice()))
    }

    /// Puts this value in the place of the first line of that name, and removes its others; adds the line at the end
    /// where there is none. The other lines keep their order and their spelling, and those before the first change stay
    /// where they are.
    ///
    /// Where memory runs out the lines stay as they were.
    pub fn set(&mut self, name: &[u8], value: &[u8]) -> Result<(), Memory>
        ensures ok { OnOk result (self.new ≡ set_in name.now value.now self.old) }
        ensures err { OnErr result (self.new ≡ self.old) }
    {
        match place_of(self.text.as_slice(), self.spans.as_slice(), name) {
            None => self.push(name, value),
            Some(at) => {
                self.push(name, value)?;
                move_last(&mut self.text, &mut self.spans, at);
                take_named(&mut self.text, &mut self.spans, at + 1, name);
                Ok(())
            }
        }
    }

    /// Removes the lines of this name. It takes no memory.
    pub fn remove(&mut self, name: &[u8])
        ensures { self.new ≡ without name.now self.old }
    {
        take_named(&mut self.text, &mut self.spans, 0, name);
    }
}

// Where the first line of this name stands.
fn place_of(text: &[u8], spans: &[HeaderSpan], name: &[u8]) -> Option<usize>
    requires { AreWithin text.now spans.now }
    ensures place { result ≡ position (has_name name.now) (lines_at text.now spans.now) }
    ensures within { IfSome result (λ at. at < length spans.now) }
{
    let mut left = spans;
    let mut at = 0;
    while let Some((line, rest)) = left.split_first() {
        if is_named(text, line, name) {
            return Some(at);
        }
        left = rest;
        at += 1;
    }
    None
}

// Takes out each line of this name from a place on.
fn take_named(text: &mut Vec<u8>, spans: &mut Vec<HeaderSpan>, from: usize, name: &[u8])
    requires spelled { AreSpelled text.old.items spans.old.items }
    ensures spelled { AreSpelled text.new.items spans.new.items }
    ensures lines { lines_at text.new.items spans.new.items
        ≡ take from (lines_at text.old.items spans.old.items) ++ without name.now (drop from (lines_at text.old.items spans.old.items)) }
{
    let mut at = from;
    while at < spans.len() {
        if is_named(text.as_slice(), &spans[at], name) {
            take_line(text, spans, at);
        } else {
            at += 1;
        }
    }
}

// Takes out one line. What stands behind it moves up.
fn take_line(text: &mut Vec<u8>, spans: &mut Vec<HeaderSpan>, at: usize)
    requires spelled { AreSpelled text.old.items spans.old.items }
    requires within { at < length spans.old.items }
    ensures spelled { AreSpelled text.new.items spans.new.items }
    ensures lines { lines_at text.new.items spans.new.items ≡ remove (lines_at text.old.items spans.old.items) at }
    ensures count { vec_len spans.new + 1 ≡ vec_len spans.old }
{
    let (start, end) = bounds_of(text.as_slice(), spans.as_slice(), at);
    cut(text, start, end);
    spans.remove(at);
    lay_out(spans, text.as_slice().len());
}

// Where the line at this place begins and ends.
fn bounds_of(text: &[u8], spans: &[HeaderSpan], at: usize) -> (usize, usize)
    requires spelled { AreSpelled text.now spans.now }
    requires within { at < length spans.now }
    ensures start { result.0 ≡ spelled_total (take at spans.now) }
    ensures end { result.1 ≡ spelled_total (take (at + 1) spans.now) }
    ensures ordered { result.0 ≤ result.1 }
    ensures within { result.1 ≤ length text.now }
{
    let start = start_of(spans, at, text.len());
    let end = start_of(spans, at + 1, text.len());
    (start, end)
}

// Takes out a part of a text.
fn cut(text: &mut Vec<u8>, start: usize, end: usize)
    requires ordered { start ≤ end }
    requires within { end ≤ vec_len text.old }
    ensures { text.new.items ≡ take start text.old.items ++ drop end text.old.items }
{
    text.copy_within(end.., start);
    let left = text.len() - (end - start);
    text.truncate(left);
}

// Moves the last line to an earlier place. What stands from there on moves down.
fn move_last(text: &mut Vec<u8>, spans: &mut Vec<HeaderSpan>, at: usize)
    requires spelled { AreSpelled text.old.items spans.old.items }
    requires within { at < length spans.old.items }
    ensures spelled { AreSpelled text.new.items spans.new.items }
    ensures lines { (front : List Field) (last : Field) → lines_at text.old.items spans.old.items ≡ front ++ last ∷ []
        → lines_at text.new.items spans.new.items ≡ take at front ++ last ∷ drop at front }
{
    let (start, _) = bounds_of(text.as_slice(), spans.as_slice(), at);
    let (from, to) = bounds_of(
        text.as_slice(),
        spans.as_slice(),
        spans.as_slice().len() - 1,
    );
    turn_tail(text.as_mut_slice(), start, to - from);
    turn_tail(spans.as_mut_slice(), at, 1);
    lay_out(spans, text.as_slice().len());
}

// Moves the last elements to an earlier place. What stands from there on moves down.
fn turn_tail<T: Copy>(items: &mut [T], start: usize, count: usize)
    requires { start + count ≤ length items.old }
    ensures { items.new ≡ turned start count items.old }
{
    items[start..].rotate_right(count);
}

// Where the line at this place begins, among lines of at most `all` bytes.
fn start_of(spans: &[HeaderSpan], at: usize, all: usize) -> usize
    requires within { at ≤ length spans.now }
    requires fits { spelled_total spans.now ≤ all }
    ensures { result ≡ spelled_total (take at spans.now) }
{
    let mut start = 0;
    for place in 0..at {
        start += spelled_len(&spans[place]);
    }
    start
}

// How many bytes a line takes with its end.
fn spelled_len(line: &HeaderSpan) -> usize
    requires { line_length line.now < 2 ^ 64 }
    ensures { result ≡ line_length line.now }
{
    span_len(line.name) + 2 + span_len(line.value) + 2
}

fn span_len(span: Span) -> usize
    ensures { result ≡ span.end - span.start }
{
    span.end.saturating_sub(span.start)
}

// Lays the lines out one behind the other, from the front of a text of `all` bytes on.
fn lay_out(spans: &mut Vec<HeaderSpan>, all: usize)
    requires { spelled_total spans.old.items ≤ all }
    ensures laid { spans.new.items ≡ laid 0 spans.old.items }
    ensures count { vec_len spans.new ≡ vec_len spans.old }
{
    let mut start = 0;
    for at in 0..spans.len() {
        let line = spans[at];
        spans[at] = span_of(start, span_len(line.name), span_len(line.value), all);
        start += spelled_len(&line);
    }
}
