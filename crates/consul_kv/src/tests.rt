//! Replies by their bytes, and the request for them.
use crate::{KvFault, is_root, kv_request, read_kv};
use dyn_config::{Config, ConfigFault, ServiceDef};
use std::alloc::Global;
use std::process::Abort;
use std::test::Fail;

// As an agent spells it, with a folder, a key of another root and members that aren't read. The URLs are
// `http://10.0.0.3`, `http://10.0.0.1` and `http://10.0.0.2`.
const REPLY: &[u8] = br#"[
  {"LockIndex":0,"Key":"traefik/","Flags":0,"Value":null,"CreateIndex":10,"ModifyIndex":10},
  {"LockIndex":0,"Key":"traefik/http/services/s/loadbalancer/servers/10/url","Flags":0,"Value":"aHR0cDovLzEwLjAuMC4z","CreateIndex":11,"ModifyIndex":19},
  {"LockIndex":1,"Session":"adf4238a-882b-9ddc-4a9d-5b6758e4159e","Key":"traefik/http/services/s/loadbalancer/servers/0/url","Flags":42,"Value":"aHR0cDovLzEwLjAuMC4x","CreateIndex":12,"ModifyIndex":12},
  {"LockIndex":0,"Key":"traefik/http/services/s/loadbalancer/servers/2/url","Flags":0,"Value":"aHR0cDovLzEwLjAuMC4y","CreateIndex":13,"ModifyIndex":13},
  {"LockIndex":0,"Key":"traefikx/http","Flags":0,"Value":"eA==","CreateIndex":14,"ModifyIndex":14}
]"#;

#[test]
fn servers_go_by_number(rt: HostRuntime) -> Result<(), Fail> {
    let alloc = rt.alloc();
    let config = read_kv(alloc, REPLY, "traefik").map_err(|_| Fail::from("no configuration"))?;
    expect_servers(&rt, &config)
}

fn expect_servers(rt: &impl Abort, config: &Config) -> Result<(), Fail> {
    let [(name, ServiceDef::Balancer(balancer))] = config.services.as_slice() else {
        return Err(Fail::from("one balancer"));
    };
    assert_eq!(rt; name.as_slice(), b"s".as_slice());
    let [first, second, third] = balancer.servers.as_slice() else {
        return Err(Fail::from("three servers"));
    };
    assert_eq!(rt; first.url.as_slice(), b"http://10.0.0.1".as_slice());
    assert_eq!(rt; second.url.as_slice(), b"http://10.0.0.2".as_slice());
    assert_eq!(rt; third.url.as_slice(), b"http://10.0.0.3".as_slice());
    Ok(())
}

#[derive(Clone, Copy)]
enum Wanted {
    Nothing,
    NotJson,
    Shape(usize),
    NotBase64(usize),
    NotText(usize),
    Clash(&'static [u8]),
    Unknown(&'static [u8]),
}

fn is_wanted(answer: &Result<Config, KvFault>, wanted: Wanted) -> bool {
    match wanted {
        Wanted::Nothing => answer.is_ok(),
        Wanted::NotJson => matches!(answer, Err(KvFault::NotJson)),
        Wanted::Shape(at) => matches!(answer, Err(KvFault::Shape { at: found }) if *found == at),
        Wanted::NotBase64(at) => {
            matches!(answer, Err(KvFault::NotBase64 { at: found }) if *found == at)
        }
        Wanted::NotText(at) =>
            matches!(answer, Err(KvFault::NotText { at: found }) if *found == at),
        Wanted::Clash(key) => {
            matches!(answer, Err(KvFault::Clash { key: found }) if found.as_slice() == key)
        }
        Wanted::Unknown(path) => {
            matches!(answer, Err(KvFault::Config(ConfigFault::Unknown { path: found })) if found.as_slice() == path)
        }
    }
}

const CASES: &[(&[u8], Wanted)] = &[
    (b"[]", Wanted::Nothing),
    (b"[", Wanted::NotJson),
    (b"\xff", Wanted::NotJson),
    (b"{}", Wanted::Shape(0)),
    (b"[1]", Wanted::Shape(0)),
    (br#"[{"Key":"a/b"}]"#, Wanted::Shape(0)),
    (
        br#"[{"Key":"b","Value":null},{"Key":7,"Value":null}]"#,
        Wanted::Shape(1),
    ),
    (br#"[{"Key":"b","Value":7}]"#, Wanted::Shape(0)),
    // Where the key isn't below the root a fault counts, too.
    (br#"[{"Key":"b","Value":"eA"}]"#, Wanted::NotBase64(0)),
    (br#"[{"Key":"b","Value":"eB=="}]"#, Wanted::NotBase64(0)),
    (br#"[{"Key":"b","Value":"/w=="}]"#, Wanted::NotText(0)),
    (
        br#"[{"Key":"b","Value":"/w=="},{"Key":7}]"#,
        Wanted::NotText(0),
    ),
    (
        br#"[{"Key":"a/x","Value":null},{"Key":"a/x","Value":null}]"#,
        Wanted::Clash(b"a/x"),
    ),
    (br#"[{"Key":"a//x","Value":null}]"#, Wanted::Clash(b"a//x")),
    (
        br#"[{"Key":"a/x//y","Value":null}]"#,
        Wanted::Clash(b"a/x//y"),
    ),
    (
        br#"[{"Key":"a/x/y","Value":null},{"Key":"a/x-","Value":null},{"Key":"a/x","Value":null}]"#,
        Wanted::Clash(b"a/x"),
    ),
    // Of several the least by bytes.
    (
        br#"[{"Key":"a/z","Value":null},{"Key":"a/z","Value":null},{"Key":"a/b/c","Value":null},{"Key":"a/b","Value":null},{"Key":"a/b//","Value":null}]"#,
        Wanted::Clash(b"a/b"),
    ),
    (
        br#"[{"Key":"a/x","Value":null},{"Key":"a/x-/y","Value":null}]"#,
        Wanted::Unknown(b"x"),
    ),
    (
        br#"[{"Key":"a/tcp/x/y","Value":null},{"Key":"a/tcp/x-y","Value":null}]"#,
        Wanted::Nothing,
    ),
    (
        br#"[{"Key":"a","Value":null},{"Key":"a/","Value":null},{"Key":"a/http/","Value":null}]"#,
        Wanted::Nothing,
    ),
];

#[test]
fn each_reply_has_its_answer(rt: HostRuntime) {
    let alloc = rt.alloc();
    for (reply, wanted) in CASES {
        assert!(rt; is_wanted(&read_kv(alloc, reply, "a"), *wanted));
    }
}

#[test]
fn requests(rt: HostRuntime) -> Result<(), Fail> {
    let alloc = rt.alloc();
    let mut out = Vec::new(alloc);
    kv_request("a/b", b"10.0.0.1:8500", &mut out)?;
    let text =
        b"GET /v1/kv/a/b?recurse=true HTTP/1.1\r\nHost: 10.0.0.1:8500\r\nConnection: close\r\n\r\n";
    assert_eq!(rt; out.as_slice(), text.as_slice());
    assert!(rt; is_root(b"a"));
    assert!(rt; is_root(b"Traefik_2/x.y-z//w"));
    assert!(rt; !is_root(b""));
    assert!(rt; !is_root(b"/a"));
    assert!(rt; !is_root(b"a/"));
    assert!(rt; !is_root(b"a b"));
    assert!(rt; !is_root(&[b'a'; 256]));
    Ok(())
}
