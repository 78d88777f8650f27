//! The lines of routers.
ghost use Rattle.std.specs.Prelude.{◌≡◌, ◌++◌, OnOk};
ghost use Rattle.generation_text.specs.Texts.{rows_text, row_text, state_text};

use fault_text::push_router_fault;
use px_base::{Memory, print_decimal};
use router_table::{RouterState, Row};
use std::alloc::Global;

/// Appends a line for each router, the first of which has the number 0: `router <row> <name> priority <p> enabled`, or
/// `disabled` and the reason. Where memory runs out, a part of it may stand there.
pub fn push_rows(alloc: Global, rows: &[Row], text: &mut Vec<u8>) -> Result<(), Memory>
    ensures { OnOk result (text.new.items ≡ text.old.items ++ rows_text 0 rows.now) }
{
    for (number, row) in rows.iter().enumerate() {
        push_row(alloc, number as u64, row, text)?;
    }
    Ok(())
}

fn push_row(alloc: Global, number: u64, row: &Row, text: &mut Vec<u8>) -> Result<(), Memory>
    ensures { OnOk result (text.new.items ≡ text.old.items ++ row_text number row.now) }
{
    let priority = row.priority;
    let priority = format!(in alloc; "{priority}")?;
    text.extend_from_slice(b"router ")?;
    print_decimal(number, text)?;
    text.extend_from_slice(b" ")?;
    text.extend_from_slice(row.name.as_slice())?;
    text.extend_from_slice(b" priority ")?;
    text.extend_from_slice(priority.as_bytes())?;
    push_state(&row.state, text)
}

fn push_state(state: &RouterState, text: &mut Vec<u8>) -> Result<(), Memory>
    ensures { OnOk result (text.new.items ≡ text.old.items ++ state_text state.now) }
{
    match state {
        RouterState::Enabled { .. } => text.extend_from_slice(b" enabled\n"),
        RouterState::Disabled(fault) => {
            text.extend_from_slice(b" disabled ")?;
            push_router_fault(*fault, text)?;
            text.extend_from_slice(b"\n")
        }
    }
}
