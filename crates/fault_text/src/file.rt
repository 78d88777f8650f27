//! Why a file is no configuration.
ghost use Rattle.std.specs.Prelude.{◌≡◌, ◌≢◌, ◌++◌, OnOk};
ghost use Rattle.file_provider.specs.declared.config.FileFault.{FileFault as Fault};
ghost use Rattle.fault_text.specs.Files.{file_fault_text, config_fault_text, located_text};

use dyn_config::ConfigFault;
use file_provider::FileFault;
use px_base::{Bytes, Memory};

/// Appends the text of a fault: `config NotToml`, or `config`, the fault's name and its path, with blanks between. It
/// has no line feed. Where memory runs out, a part of it may stand there.
pub fn push_file_fault(fault: &FileFault, out: &mut Vec<u8>) -> Result<(), Memory>
    ensures { OnOk result (out.new.items ≡ out.old.items ++ file_fault_text fault.now) }
{
    match fault {
        FileFault::NotToml => out.extend_from_slice(b"config NotToml"),
        FileFault::Config(fault) => push_config_fault(fault, out),
        FileFault::Memory => out.extend_from_slice(b"config Memory"),
    }
}

fn push_config_fault(fault: &ConfigFault, out: &mut Vec<u8>) -> Result<(), Memory>
    ensures { OnOk result (out.new.items ≡ out.old.items ++ config_fault_text fault.now) }
{
    match fault {
        ConfigFault::Unknown { path } => push_located(b"config Unknown ", path, out),
        ConfigFault::Twice { path } => push_located(b"config Twice ", path, out),
        ConfigFault::Kind { path } => push_located(b"config Kind ", path, out),
        ConfigFault::Missing { path } => push_located(b"config Missing ", path, out),
        ConfigFault::Range { path } => push_located(b"config Range ", path, out),
        ConfigFault::BadName { path } => push_located(b"config BadName ", path, out),
        ConfigFault::TooMany { path } => push_located(b"config TooMany ", path, out),
        ConfigFault::Memory => out.extend_from_slice(b"config Memory"),
    }
}

fn push_located(name: &[u8], path: &Bytes, out: &mut Vec<u8>) -> Result<(), Memory>
    ensures { OnOk result (out.new.items ≡ out.old.items ++ located_text name.now path.now) }
{
    out.extend_from_slice(name)?;
    out.extend_from_slice(path.as_slice())
}
