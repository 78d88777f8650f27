//! The calls of a rule, compiled.
use crate::method::UpperMethod;
use crate::network::Network;
use crate::pattern::Pattern;
use px_base::Bytes;

// A call's values.
#[derive(Drop)]
pub(crate) struct Words {
    pub key: Bytes,
    pub value: Bytes,
}

// A call's key and its pattern.
#[derive(Drop)]
pub(crate) struct Search {
    pub key: Bytes,
    pub pattern: Pattern,
}

// A compiled call.
#[derive(Drop)]
pub(crate) enum Probe {
    Header(Words),
    HeaderRegexp(Search),
    Host(Words),
    HostRegexp(Search),
    Method(UpperMethod),
    Path(Words),
    PathPrefix(Words),
    PathRegexp(Search),
    Query(Words),
    QueryRegexp(Search),
    ClientIp(Network),
}
