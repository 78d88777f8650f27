//! Middlewares.

use px_base::{Bytes, List};

/// A middleware as it is declared. Absent texts and lists are empty.
#[derive(PartialEq, Eq, Drop)]
pub enum MiddlewareDef {
    AddPrefix {
        prefix: Bytes,
    },
    StripPrefix {
        prefixes: List<Bytes>,
        unsupported: bool,
    },
    ReplacePath {
        path: Bytes,
    },
    ReplacePathRegex {
        regex: Bytes,
        replacement: Bytes,
    },
    /// Names and values of field lines to set, or to remove where the value is empty.
    Headers {
        request: List<(Bytes, Bytes)>,
        response: List<(Bytes, Bytes)>,
        unsupported: bool,
    },
    IpAllowList {
        ranges: List<Bytes>,
        unsupported: bool,
    },
    Chain {
        names: List<Bytes>,
    },
    /// In bytes; 0 or less means no limit.
    Buffering {
        max_body: i64,
        unsupported: bool,
    },
    RedirectScheme {
        scheme: Bytes,
        port: Bytes,
        permanent: bool,
    },
    RedirectRegex {
        regex: Bytes,
        replacement: Bytes,
        permanent: bool,
    },
    /// A kind that is not supported.
    Unsupported,
}
