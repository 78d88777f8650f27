//! Two providers' routers with the same name.
use dyn_config::Config;
use file_provider::read_file_config;
use head_view::{EMPTY_HEADER_SPAN, Scan, scan_request, view};
use ip_net::Ip;
use provider_merge::merge;
use px_base::Bytes;
use router_table::{Table, build_table, rows, winner};
use rule_eval::RegexShop;
use std::alloc::Global;
use std::test::Fail;

const FILE: &[u8] = b"[http.routers.r]
rule = \"PathPrefix(`/`)\"
service = \"s@file\"
[[http.services.s.loadBalancer.servers]]
url = \"http://127.0.0.1:9000\"
";

fn config(alloc: Global) -> Result<Config, Fail> {
    match read_file_config(alloc, FILE) {
        Ok(config) => Ok(config),
        Err(_) => Err(Fail::from("no configuration")),
    }
}

// The table of the same file as both providers' configuration.
fn table(alloc: Global) -> Result<Table, Fail> {
    let merged = merge(alloc, config(alloc)?, config(alloc)?)?;
    let services = [Bytes::from_slice(alloc, b"s@file")?];
    let mut shop = RegexShop::new(alloc);
    Ok(build_table(alloc, &merged, &services, &[], 256, &mut shop)?)
}

fn won(alloc: Global, table: &Table) -> Result<Option<u32>, Fail> {
    let head = b"GET / HTTP/1.1\r\nHost: a\r\n\r\n";
    let mut room = [EMPTY_HEADER_SPAN; 4];
    match scan_request(head, &mut room) {
        Scan::Whole(spans) => {
            let view = view(head, &room, &spans, b"a", b"/", b"");
            Ok(winner(alloc, table, b"web", &view, Ip::V4(0x7f00_0001))?)
        }
        _ => Err(Fail::from("no head")),
    }
}

#[test]
fn the_smaller_name_wins(rt: HostRuntime) -> Result<(), Fail> {
    let alloc = rt.alloc();
    let table = table(alloc)?;
    let row = won(alloc, &table)?;
    assert_eq!(rt; row, Some(0));
    assert_eq!(rt; rows(&table).len(), 2);
    assert_eq!(rt; rows(&table)[0].name.as_slice(), b"r@consul".as_slice());
    Ok(())
}
