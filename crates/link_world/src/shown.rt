//! The parts of a note that come in lists, each with its text.
ghost use Rattle.std.specs.Prelude.{◌≡◌, ◌++◌, ◌∷◌, ℕ, List, OnOk};
ghost use Rattle.std.specs.List.{flat_map};
ghost use Rattle.std.specs.Fmt.{decimal};
ghost use Rattle.link_world.specs.NoteText.{joined, look_text, pick_text, turn_text};

use crate::note::{Look, NodePick, NodeTurn};
use px_base::{Memory, print_decimal};

/// A part of a note that has a text.
pub(crate) trait Shown {
    /// Its text.
    ghost text: { Self → List ℕ };

    fn push_text(&self, out: &mut Vec<u8>) -> Result<(), Memory>
        ensures { OnOk result (out.new.items ≡ out.old.items ++ text self.now) };
}

impl Shown for u32 {
    ghost text = { λ n. decimal n };

    fn push_text(&self, out: &mut Vec<u8>) -> Result<(), Memory> {
        print_decimal(*self as u64, out)
    }
}

#[tactic(auto, using(std::proofs::Common::append_assoc))]
impl Shown for Look {
    ghost text = { look_text };

    fn push_text(&self, out: &mut Vec<u8>) -> Result<(), Memory> {
        print_decimal(self.node as u64, out)?;
        out.extend_from_slice(b":")?;
        print_decimal(self.mask, out)
    }
}

#[tactic(auto, using(std::proofs::Common::append_assoc))]
impl Shown for NodePick {
    ghost text = { pick_text };

    fn push_text(&self, out: &mut Vec<u8>) -> Result<(), Memory> {
        print_decimal(self.node as u64, out)?;
        out.extend_from_slice(b":")?;
        print_decimal(self.pick.from, out)?;
        out.extend_from_slice(b"-")?;
        print_decimal(self.pick.to, out)?;
        out.extend_from_slice(b":")?;
        print_decimal(self.pick.child as u64, out)
    }
}

#[tactic(auto, using(std::proofs::Common::append_assoc))]
impl Shown for NodeTurn {
    ghost text = { turn_text };

    fn push_text(&self, out: &mut Vec<u8>) -> Result<(), Memory> {
        print_decimal(self.node as u64, out)?;
        out.extend_from_slice(b":")?;
        print_decimal(self.n, out)?;
        out.extend_from_slice(b":")?;
        print_decimal(self.selected, out)
    }
}

/// Appends the texts joined by commas, or a dash where there are none.
pub(crate) fn push_joined<T: Shown>(items: &[T], out: &mut Vec<u8>) -> Result<(), Memory>
    ensures { OnOk result (out.new.items ≡ out.old.items ++ joined T.text items.now) }
{
    match items {
        [] => out.extend_from_slice(b"-"),
        [first, rest @ ..] => {
            first.push_text(out)?;
            push_others(rest, out)
        }
    }
}

// Appends each text after a comma.
fn push_others<T: Shown>(items: &[T], out: &mut Vec<u8>) -> Result<(), Memory>
    ensures { OnOk result (out.new.items ≡ out.old.items ++ flat_map (λ y. 44 ∷ T.text y) items.now) }
{
    for item in items {
        out.extend_from_slice(b",")?;
        item.push_text(out)?;
    }
    Ok(())
}
