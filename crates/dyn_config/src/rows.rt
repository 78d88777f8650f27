//! Questions on the tables of the schema.

ghost use Rattle.std.specs.Prelude.{◌≡◌, ◌<◌};
ghost use Rattle.field_tree.specs.declared.tree.Tree.{Tree as AnyTree};
ghost use Rattle.field_tree.specs.declared.values.Style.{Style as AnyStyle};
ghost use Rattle.dyn_config.specs.Walk.{is_known, named_check};
ghost use Rattle.dyn_config.specs.Shapes.{rows_of, kinds_of, limit_of, declared_check, meaning, depth};

use crate::schema::{Declared, Family, Shape, Table, kinds_in, rows_in};
use px_base::fold_equal;

/// How many of them a provider may declare.
pub(crate) fn limit(declared: Declared) -> usize
    ensures { result ≡ limit_of declared }
{
    match declared {
        Declared::Routers => 2000,
        Declared::Services => 500,
        Declared::Middlewares => 500,
    }
}

/// What is asked of a declared value.
pub(crate) fn declared_shape(declared: Declared) -> Shape
    ensures shape { meaning result ≡ declared_check declared }
    ensures below { depth result < 7 }
{
    match declared {
        Declared::Routers => Shape::Options(Table::Router),
        Declared::Services => Shape::Kinds(Family::Services),
        Declared::Middlewares => Shape::Kinds(Family::Middlewares),
    }
}

/// Whether a table has an option.
pub(crate) fn is_known(table: Table, key: &[u8]) -> bool
    ensures { result ≡ is_known (rows_of table) key.now }
{
    let rows = rows_in(table);
    for at in 0..rows.len() {
        if fold_equal(rows[at].key, key) {
            return true;
        }
    }
    false
}

/// What is asked of a value of the kind that a key tells; of an unknown kind nothing is.
pub(crate) fn kind_shape(family: Family, key: &[u8]) -> Shape
    ensures shape { (style : AnyStyle) (tree : AnyTree) → named_check (kinds_of family) key.now style tree ≡ meaning result style tree }
    ensures below { depth result < 5 }
{
    let rows = kinds_in(family);
    for at in 0..rows.len() {
        if fold_equal(rows[at].key, key) {
            return rows[at].shape;
        }
    }
    Shape::Anything
}
