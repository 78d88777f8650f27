//! A built middleware, why one can't be built, and what one does to a request.
ghost use Rattle.std.specs.Prelude.{◌≡◌, true};
ghost use Rattle.middleware_stage.specs.Lawful.{has_lawful_lines};
ghost use Rattle.middleware_stage.specs.Views.{kind_def};

use crate::range::Range;
use http_wire::Request;
use px_base::{Bytes, List};
use rule_eval::Pattern;

/// Why a middleware can't be used.
#[derive(Clone, Copy, Debug, PartialEq, Eq)]
pub enum StageFault {
    /// Its kind, or an option that it has, isn't supported.
    Unsupported,
    /// A range is no network, a field may not be set, a pattern has more than 512 bytes, or a replacement isn't UTF-8.
    Value,
    /// It has a pattern, and no more may be built.
    TooManyPatterns,
    /// The grammar of `regex` doesn't read its pattern.
    Syntax,
    /// The shop refused its pattern for size.
    TooBig,
}

/// What one middleware does. Contracts know it by its declaration, `stage_def`. Each line that it sets or removes may be.
#[derive(Drop)]
pub struct Stage {
    pub(crate) kind: Kind,
    pub(crate) ghost lawful: { has_lawful_lines (kind_def kind) ≡ true },
}

// A pattern, and the template that each of its matches is replaced by.
#[derive(Drop)]
pub(crate) struct Rewrite {
    pub pattern: Pattern,
    pub replacement: String,
}

// A middleware by its kind, with all that it was declared with.
#[derive(Drop)]
pub(crate) enum Kind {
    AddPrefix {
        prefix: Bytes,
    },
    StripPrefix {
        prefixes: List<Bytes>,
    },
    ReplacePath {
        path: Bytes,
    },
    ReplacePathRegex {
        rewrite: Rewrite,
    },
    Headers {
        request: List<(Bytes, Bytes)>,
        response: List<(Bytes, Bytes)>,
    },
    IpAllowList {
        ranges: List<Range>,
    },
    Buffering {
        max_body: i64,
    },
    RedirectScheme {
        scheme: Bytes,
        port: Bytes,
        permanent: bool,
    },
    RedirectRegex {
        rewrite: Rewrite,
        permanent: bool,
    },
}

/// A middleware that was built, or why it can't be.
#[derive(Drop)]
pub enum BuiltStage {
    Stage(Stage),
    Fault(StageFault),
}

/// What a middleware does to a request.
#[derive(Drop)]
pub enum StageFlow {
    /// It goes on as this request. Its body may have so many bytes, where the middleware limits it.
    Pass {
        request: Request,
        body_limit: Option<u64>,
    },
    /// The proxy answers it by itself: with a location exactly where it is redirected.
    Stop {
        status: u16,
        location: Option<Bytes>,
    },
}
