//! A request's head as slices of the buffer that it was read from.
ghost use Rattle.head_view.specs.Lines.{AreWithin};

mod make;

use httparse::spans::HeaderSpan;
pub use make::view;

/// A request's head: its method, what was made of its host and its target, and its field lines.
#[derive(Clone, Copy, Debug, Drop)]
pub struct RequestView<'a> {
    pub method: &'a [u8],
    pub host: &'a [u8],
    pub path: &'a [u8],
    pub query: &'a [u8],
    buf: &'a [u8],
    lines: &'a [HeaderSpan],
    ghost within: { AreWithin buf.now lines.now },
}

impl<'a> RequestView<'a> {
    ghost use Rattle.std.specs.Prelude.{◌≡◌};
    ghost use Rattle.head_view.specs.Lines.{values_of};
    ghost use Rattle.head_view.specs.Views.{view_lines, fields_left};

    /// The values of the field lines with this name, without case, in order, without the blanks
    /// round them (RFC 9110 sections 5.1 and 5.3).
    pub fn field<'n>(&self, name: &'n [u8]) -> Fields<'a, 'n>
        ensures { fields_left result ≡ values_of name.now (view_lines self.now) }
    {
        Fields {
            buf: self.buf,
            lines: self.lines,
            name,
        }
    }
}

/// The values of one name that are left, each a slice of the buffer.
#[derive(Clone, Copy, Debug, Drop)]
pub struct Fields<'a, 'n> {
    buf: &'a [u8],
    lines: &'a [HeaderSpan],
    name: &'n [u8],
    ghost within: { AreWithin buf.now lines.now },
}

impl<'a, 'n> Iterator for Fields<'a, 'n> {
    ghost use Rattle.std.specs.Iterator.{YieldsFirstBy, item_count};
    ghost use Rattle.head_view.specs.Views.{fields_left};

    type Item = &'a [u8];

    ghost next_gives = { YieldsFirstBy (λ v. v.now) fields_left };

    ghost remaining = { item_count fields_left };

    fn next(&mut self) -> Option<&'a [u8]> {
        'lines: while let Some((line, rest)) = self.lines.split_first() {
            let name = line.name.of(self.buf);
            let value = line.value.of(self.buf);
            self.lines = rest;
            if name.eq_ignore_ascii_case(self.name) {
                return Some(value);
            }
        }
        None
    }
}
