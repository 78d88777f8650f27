// The tree of a TOML document.
ghost use Rattle.std.specs.Prelude.{◌≡◌, IfOk};
ghost use Rattle.toml.specs.View as toml_view;
ghost use Rattle.file_provider.specs.Shape.{shape_of, shapes_of, fields_of, table};
ghost use Rattle.file_provider.specs.View.{view, shapes_view, fields_view};

use field_tree::{Fields, Tree};
use px_base::{Bytes, Memory};
use sqlite_items::Items;
use std::alloc::Global;
use toml::Value;
use toml::value::{Array, Table};

/// The tree of a document.
pub(crate) fn tree_of(alloc: Global, document: &Table) -> Result<Tree, Memory>
    ensures { IfOk result (λ t. view t ≡ table (fields_of (toml_view.table_view document.now))) }
{
    Ok(Tree::Table(convert_members(alloc, document)?))
}

#[cycle(convert)]
fn convert(alloc: Global, value: &Value) -> Result<Tree, Memory>
    ensures { IfOk result (λ t. view t ≡ shape_of (toml_view.view value.now)) }
{
    match value {
        Value::String(text) => Ok(Tree::Text(Bytes::from_slice(alloc, text.as_bytes())?)),
        Value::Integer(n) => Ok(Tree::Num(*n)),
        Value::Float(_) => Ok(Tree::Other),
        Value::Boolean(b) => Ok(Tree::Flag(*b)),
        Value::Datetime(_) => Ok(Tree::Other),
        Value::Array(items) => Ok(Tree::List(convert_items(alloc, items)?)),
        Value::Table(members) => Ok(Tree::Table(convert_members(alloc, members)?)),
    }
}

#[cycle(convert)]
fn convert_items(alloc: Global, items: &Array) -> Result<Items<Tree>, Memory>
    ensures { IfOk result (λ v. shapes_view v ≡ shapes_of (toml_view.array_view items.now)) }
{
    let mut trees = Vec::with_capacity(alloc, items.len())?;
    for item in items {
        trees.push(convert(alloc, item)?)?;
    }
    Ok(Items::from_vec(trees))
}

#[cycle(convert)]
fn convert_members(alloc: Global, members: &Table) -> Result<Fields<Tree>, Memory>
    ensures { IfOk result (λ v. fields_view v ≡ fields_of (toml_view.table_view members.now)) }
{
    let mut fields = Fields::new(alloc);
    for (key, member) in members.iter() {
        let name = Bytes::from_slice(alloc, key.as_bytes())?;
        let tree = convert(alloc, member)?;
        fields.push(name, tree)?;
    }
    Ok(fields)
}
