//! Why a router is disabled.
ghost use Rattle.std.specs.Prelude.{◌≡◌, ◌++◌, OnOk, codes};
ghost use Rattle.std.specs.Fmt.{decimal};
ghost use Rattle.fault_text.specs.Routers.{router_fault_text, rule_fault_text, compile_fault_text, counted_text};

use px_base::{Memory, print_decimal};
use router_table::RouterFault;
use rule_eval::CompileFault;
use rule_lang::RuleFault;

/// Appends the text of a router's fault: its name, as `MissingService`, and what it tells, as `Rule Arity 0`. Where
/// memory runs out, a part of it may stand there.
pub fn push_router_fault(fault: RouterFault, out: &mut Vec<u8>) -> Result<(), Memory>
    ensures { OnOk result (out.new.items ≡ out.old.items ++ router_fault_text fault) }
{
    match fault {
        RouterFault::Tls => out.extend_from_slice(b"Tls"),
        RouterFault::Unsupported => out.extend_from_slice(b"Unsupported"),
        RouterFault::Rule(fault) => push_rule_fault(fault, out),
        RouterFault::Priority => out.extend_from_slice(b"Priority"),
        RouterFault::TooManyPatterns => out.extend_from_slice(b"TooManyPatterns"),
        RouterFault::Compile(fault) => push_compile_fault(fault, out),
        RouterFault::NoService => out.extend_from_slice(b"NoService"),
        RouterFault::MissingService => out.extend_from_slice(b"MissingService"),
        RouterFault::BadService => out.extend_from_slice(b"BadService"),
        RouterFault::MissingMiddleware => out.extend_from_slice(b"MissingMiddleware"),
        RouterFault::BadMiddleware => out.extend_from_slice(b"BadMiddleware"),
        RouterFault::ChainTooLong => out.extend_from_slice(b"ChainTooLong"),
    }
}

fn push_rule_fault(fault: RuleFault, out: &mut Vec<u8>) -> Result<(), Memory>
    ensures { OnOk result (out.new.items ≡ out.old.items ++ rule_fault_text fault) }
{
    match fault {
        RuleFault::TooLong => out.extend_from_slice(b"Rule TooLong"),
        RuleFault::Lex { at } => push_counted(b"Rule Lex ", at as u64, out),
        RuleFault::Unexpected { at } => push_counted(b"Rule Unexpected ", at as u64, out),
        RuleFault::TooDeep => out.extend_from_slice(b"Rule TooDeep"),
        RuleFault::UnknownMatcher { at } => push_counted(b"Rule UnknownMatcher ", at as u64, out),
        RuleFault::Arity { at } => push_counted(b"Rule Arity ", at as u64, out),
        RuleFault::Value { at } => push_counted(b"Rule Value ", at as u64, out),
        RuleFault::Memory => out.extend_from_slice(b"Rule Memory"),
    }
}

fn push_compile_fault(fault: CompileFault, out: &mut Vec<u8>) -> Result<(), Memory>
    ensures { OnOk result (out.new.items ≡ out.old.items ++ compile_fault_text fault) }
{
    match fault {
        CompileFault::Address { leaf } => push_counted(b"Compile Address ", leaf as u64, out),
        CompileFault::Syntax { leaf } => push_counted(b"Compile Syntax ", leaf as u64, out),
        CompileFault::TooBig { leaf } => push_counted(b"Compile TooBig ", leaf as u64, out),
        CompileFault::Memory => out.extend_from_slice(b"Compile Memory"),
    }
}

// A name and a number.
fn push_counted(name: &[u8], number: u64, out: &mut Vec<u8>) -> Result<(), Memory>
    ensures { OnOk result (out.new.items ≡ out.old.items ++ counted_text name.now number) }
{
    out.extend_from_slice(name)?;
    print_decimal(number, out)
}
