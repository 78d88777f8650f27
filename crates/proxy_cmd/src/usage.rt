//! How the program is called.
ghost use Rattle.std.specs.Prelude.{◌≡◌, IfOk};
ghost use Rattle.proxy_cmd.specs.Output.{usage_text};

use px_base::{Answer, Memory, make_answer};
use std::alloc::Global;

// The answer to words that are no command here.
pub(crate) fn usage_answer(alloc: Global) -> Result<Answer, Memory>
    ensures { IfOk result (λ a. (a.status ≡ 2) × (a.text.items ≡ usage_text)) }
{
    make_answer(alloc, 2, usage())
}

fn usage() -> &'static [u8]
    ensures { result.now ≡ usage_text }
{
    b"route <config> [--consul <root>] [--entry <name>] [--peer <ip>]
check <config> [--consul <root>]
replay
rehearse <n>                       n is 0 to 100000
serve <name>=<ip>:<port> ... [--file <path>] [--consul <ip>:<port>/<root>]
      [--workers <n>] [--poll <seconds>] [--requests <n>] [--access <prefix>]
"
}
