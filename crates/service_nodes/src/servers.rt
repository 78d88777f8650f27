//! The servers of a balancer.
ghost use Rattle.std.specs.Prelude.{None, IfOk};
ghost use Rattle.std.specs.List.{AllZip};
ghost use Rattle.service_faults.specs.Own.{HasUrl, IsUrlState};
ghost use Rattle.service_nodes.specs.Nodes.{IsServerOf};

use dyn_config::ServerDef;
use px_base::{Bytes, List, Memory, Server};
use service_graph::read_server_url;
use std::alloc::Global;

pub(crate) fn servers_of(alloc: Global, defs: &[ServerDef]) -> Result<List<Server>, Memory>
    requires { IsUrlState defs.now None }
    ensures { IfOk result (λ servers. AllZip IsServerOf defs.now servers) }
{
    let mut servers = List::new(alloc);
    for def in defs {
        let server = server_of(alloc, def)?;
        servers.push(server)?;
    }
    Ok(servers)
}

fn server_of(alloc: Global, def: &ServerDef) -> Result<Server, Memory>
    requires { HasUrl def.now }
    ensures { IfOk result (IsServerOf def.now) }
{
    match read_server_url(def.url.as_slice()) {
        Ok(url) => Ok(Server {
            host: Bytes::from_slice(alloc, url.host)?,
            port: url.port,
            weight: def.weight,
        }),
        Err(_) => unreachable!(),
    }
}
