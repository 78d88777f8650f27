//! A view over the spans that a scan found.
ghost use Rattle.std.specs.Prelude.{◌≡◌, take, map};
ghost use Rattle.httparse.specs.Grammar.{RequestHead};
ghost use Rattle.httparse.specs.Spans.{span_bytes, name_and_value};
ghost use Rattle.head_view.specs.Lines.{lines_at};
ghost use Rattle.head_view.specs.Scans.{IsHeadWithin, IsHeadAt};
ghost use Rattle.head_view.specs.Views.{view_lines};

use super::RequestView;
use crate::scan::HeadSpans;
use httparse::spans::HeaderSpan;

/// The view of the head that the spans cover in `buf`, with a host, a path and a query that the
/// caller made of it.
pub fn view<'a>(
    buf: &'a [u8],
    room: &'a [HeaderSpan],
    spans: &HeadSpans,
    host: &'a [u8],
    path: &'a [u8],
    query: &'a [u8],
) -> RequestView<'a>
    requires { IsHeadWithin buf.now room.now spans.now }
    ensures method { result.method.now ≡ span_bytes buf.now spans.now.method }
    ensures host { result.host.now ≡ host.now }
    ensures path { result.path.now ≡ path.now }
    ensures query { result.query.now ≡ query.now }
    ensures lines { view_lines result ≡ lines_at buf.now (take spans.now.lines room.now) }
    // So the view shows the head that the scan found.
    ensures head { (h : RequestHead) → IsHeadAt buf.now room.now spans.now h
        → (result.method.now ≡ h.method) × (view_lines result ≡ map name_and_value h.fields) }
{
    RequestView {
        method: spans.method.of(buf),
        host,
        path,
        query,
        buf,
        lines: &room[..spans.lines],
    }
}
