//! The head of a message as spans of the buffer that it lies in: nothing is copied, and no memory is taken.
//! Bodies and the meaning of fields stand in the crates above.
#![tactic(auto)]

mod reply;
mod scan;
#[cfg(test)]
mod tests;
mod views;

pub use httparse::spans::{EMPTY_HEADER_SPAN, HeaderSpan, Span};
pub use reply::{ReplyScan, ReplySpans, scan_reply};
pub use scan::{HeadSpans, Scan, scan_request};
pub use views::{Fields, RequestView, view};
