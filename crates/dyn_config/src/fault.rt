//! Why a tree is no configuration.

use px_base::Bytes;

/// Why a tree is no configuration. A path joins the keys as written by `.`, with list places as `[0]`; it is
/// empty where the whole is meant.
#[derive(Debug, Drop)]
pub enum ConfigFault {
    /// The key stands in no table of the schema.
    Unknown { path: Bytes },
    /// A key that differs from another of its table in ASCII case alone, a second kind of a service or
    /// middleware, or a second number of a list.
    Twice { path: Bytes },
    /// A value of another kind.
    Kind { path: Bytes },
    /// A required option is absent.
    Missing { path: Bytes },
    /// A value outside its range.
    Range { path: Bytes },
    /// A declared name with a character that names can't have.
    BadName { path: Bytes },
    /// A table with more routers, services or middlewares than may be.
    TooMany { path: Bytes },
    /// Memory ran out.
    Memory,
}
