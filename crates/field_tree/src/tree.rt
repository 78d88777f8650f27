//! The tree.

ghost use Rattle.std.specs.Prelude.{◌≡◌, ◌↔◌, Some, None, Contains, MatchOption};
ghost use Rattle.std.specs.Option.{option_copied};
ghost use Rattle.field_tree.specs.Table.{KeysRise, value_at};
ghost use Rattle.field_tree.specs.Trees.{entries_of, list_of, table_of};
ghost use Rattle.field_tree.specs.declared.tree.Tree.{Tree};

use crate::Fields;
use px_base::Bytes;
use sqlite_items::Items;

/// A value of a configuration text.
#[derive(Debug, Drop)]
pub enum Tree {
    /// A text, as its bytes.
    Text(Bytes),
    Num(i64),
    Flag(bool),
    /// A value of a kind that no option takes, as a TOML float or date.
    Other,
    List(Items<Tree>),
    Table(Fields<Tree>),
}

impl Tree {
    /// The values of a list, where it is one.
    pub fn list(&self) -> Option<&[Tree]>
        ensures { MatchOption result (list_of self.now ≡ None) (λ values. list_of self.now ≡ Some values.now) }
    {
        match self {
            Tree::Text(_) => None,
            Tree::Num(_) => None,
            Tree::Flag(_) => None,
            Tree::Other => None,
            Tree::List(values) => Some(values.as_slice()),
            Tree::Table(_) => None,
        }
    }

    /// The table, where it is one.
    pub fn table(&self) -> Option<&Fields<Tree>>
        ensures { option_copied result ≡ table_of self.now }
    {
        match self {
            Tree::Text(_) => None,
            Tree::Num(_) => None,
            Tree::Flag(_) => None,
            Tree::Other => None,
            Tree::List(_) => None,
            Tree::Table(fields) => Some(fields),
        }
    }
}

/// The value of a table under a key. Keys are compared as written, by their bytes; anything but a table
/// has none.
pub fn find<'a>(tree: &'a Tree, key: &[u8]) -> Option<&'a Tree>
    ensures value { option_copied result ≡ value_at (entries_of tree.now) key.now }
    // It is the value of the one entry with that key.
    ensures entry { (value : Tree) →
        (option_copied result ≡ Some value) ↔ Contains (entries_of tree.now) (key.now, value) }
    ensures rising { KeysRise (entries_of tree.now) }
{
    match tree.table() {
        Some(fields) => fields.get(key),
        None => None,
    }
}
