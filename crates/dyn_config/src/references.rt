//! References to what another provider declares.

ghost use Rattle.std.specs.Prelude.{◌≡◌, ◌≤◌, IfOk};
ghost use Rattle.dyn_config.specs.Names.{referred, suffix_of};

use px_base::{Bytes, List, Memory};
use std::alloc::Global;

/// The qualified name that a reference stands for: itself where it has an `@`, else with `@file` (provider 0)
/// or `@consul` (provider 1) at its end.
pub fn refer(alloc: Global, provider: u32, text: &[u8]) -> Result<Bytes, Memory>
    requires { provider ≤ 1 }
    ensures { IfOk result (λ name. name ≡ referred provider text.now) }
{
    let mut name = Vec::new(alloc);
    name.extend_from_slice(text)?;
    if !text.contains(&b'@') {
        name.extend_from_slice(suffix(provider))?;
    }
    Ok(List::from_vec(name))
}

fn suffix(provider: u32) -> &'static [u8]
    requires { provider ≤ 1 }
    ensures { result.now ≡ suffix_of provider }
{
    if provider == 0 {
        b"@file".as_slice()
    } else {
        b"@consul".as_slice()
    }
}
