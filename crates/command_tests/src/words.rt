//! Words that are commands, and words that are none.
use command_words::{Command, WordFault, read_words};
use ip_net::Ip;
use link_world::{Listen, ServePlan};
use std::alloc::{AllocError, Global};
use std::process::Abort;
use std::test::Fail;

// The command of the words that stand between bars.
fn read(alloc: Global, line: &str) -> Result<Option<Command>, AllocError> {
    let mut words = Vec::new(alloc);
    for word in line.split('|') {
        words.push(String::from_str(alloc, word)?)?;
    }
    match read_words(alloc, words.as_slice()) {
        Ok(command) => Ok(Some(command)),
        Err(WordFault::NotACommand) => Ok(None),
        Err(WordFault::Memory) => Err(AllocError),
    }
}

fn accepts(rt: &impl Abort, alloc: Global, line: &str) -> Result<(), Fail> {
    let accepted = read(alloc, line)?.is_some();
    assert!(rt; accepted, "{line}");
    Ok(())
}

fn refuses(rt: &impl Abort, alloc: Global, line: &str) -> Result<(), Fail> {
    let refused = read(alloc, line)?.is_none();
    assert!(rt; refused, "{line}");
    Ok(())
}

fn accepted_words(rt: &impl Abort, alloc: Global) -> Result<(), Fail> {
    accepts(rt, alloc, "replay|--")?;
    accepts(rt, alloc, "route|")?;
    accepts(rt, alloc, "route|--|-a")?;
    accepts(rt, alloc, "check|c.toml")?;
    accepts(rt, alloc, "serve|a=[::1]:443|b=10.0.0.1:0080")?;
    accepts(
        rt,
        alloc,
        "serve|--requests|0000000007|a=0.0.0.0:65535|--access=-",
    )?;
    accepts(rt, alloc, "serve|a=10.0.0.1:80|--workers|0000000001")?;
    Ok(())
}

fn refused_options(rt: &impl Abort, alloc: Global) -> Result<(), Fail> {
    refuses(rt, alloc, "route|a|--entry|web|--entry=web")?;
    refuses(rt, alloc, "route|a|--entry|-web")?;
    refuses(rt, alloc, "route|a|--entry")?;
    refuses(rt, alloc, "route|a|--entry=")?;
    refuses(rt, alloc, "route|a|--file|b")?;
    refuses(rt, alloc, "route|a|-b")?;
    refuses(rt, alloc, "check|a|--entry|web")?;
    refuses(rt, alloc, "check|a|--consul|b")?;
    refused_workers(rt, alloc)
}

fn refused_workers(rt: &impl Abort, alloc: Global) -> Result<(), Fail> {
    refuses(rt, alloc, "serve|a=10.0.0.1:80|--workers|2")?;
    refuses(rt, alloc, "serve|a=10.0.0.1:80|--workers|0")?;
    refuses(rt, alloc, "serve|a=10.0.0.1:80|--workers=4294967297")?;
    refuses(rt, alloc, "serve|a=10.0.0.1:80|--workers=x")?;
    Ok(())
}

fn refused_words(rt: &impl Abort, alloc: Global) -> Result<(), Fail> {
    refuses(rt, alloc, "")?;
    refuses(rt, alloc, "Route|a")?;
    refuses(rt, alloc, "route")?;
    refuses(rt, alloc, "route|a|b")?;
    refuses(rt, alloc, "route|a|--peer|10.0.0")?;
    refuses(rt, alloc, "check")?;
    refuses(rt, alloc, "check|a|b")?;
    refuses(rt, alloc, "replay|a")?;
    Ok(())
}

fn refused_listens(rt: &impl Abort, alloc: Global) -> Result<(), Fail> {
    refuses(rt, alloc, "serve")?;
    refuses(rt, alloc, "serve|a=10.0.0.1:0")?;
    refuses(rt, alloc, "serve|a=::1:80")?;
    refuses(rt, alloc, "serve|a=[10.0.0.1]:80")?;
    refuses(rt, alloc, "serve|a@b=10.0.0.1:80")?;
    refuses(rt, alloc, "serve|a=10.0.0.1:80|a=10.0.0.1:81")?;
    Ok(())
}

#[test]
fn words(rt: HostRuntime) -> Result<(), Fail> {
    let alloc = rt.alloc();
    accepted_words(&rt, alloc)?;
    refused_options(&rt, alloc)?;
    refused_words(&rt, alloc)?;
    refused_listens(&rt, alloc)
}

fn route_is(
    rt: &impl Abort,
    alloc: Global,
    line: &str,
    entry: &[u8],
    peer: Ip,
) -> Result<(), Fail> {
    match read(alloc, line)? {
        Some(Command::Route(plan)) => {
            assert_eq!(rt; plan.config.as_slice(), b"a.toml".as_slice());
            assert_eq!(rt; plan.entry.as_slice(), entry);
            assert_eq!(rt; plan.peer, peer);
            Ok(())
        }
        _ => panic!(rt; "no route"),
    }
}

fn serve_plan(rt: &impl Abort, alloc: Global, line: &str) -> Result<ServePlan, Fail> {
    match read(alloc, line)? {
        Some(Command::Serve(plan)) => Ok(plan),
        _ => panic!(rt; "no serve"),
    }
}

fn listens_at(rt: &impl Abort, listen: Option<&Listen>, entry: &[u8], ip: Ip, port: u16) {
    match listen {
        Some(listen) => {
            assert_eq!(rt; listen.entry.as_slice(), entry);
            assert_eq!(rt; listen.ip, ip);
            assert_eq!(rt; listen.port, port);
        }
        None => panic!(rt; "no listen"),
    }
}

#[test]
fn plans(rt: HostRuntime) -> Result<(), Fail> {
    let alloc = rt.alloc();
    route_is(&rt, alloc, "route|a.toml", b"web", Ip::V4(0x7f00_0001))?;
    route_is(
        &rt,
        alloc,
        "route|--peer=::1|a.toml|--entry|x",
        b"x",
        Ip::V6(1),
    )?;
    let plan = serve_plan(
        &rt,
        alloc,
        "serve|w=127.0.0.1:80|v=[::1]:81|--file|f=g|--requests|12",
    )?;
    assert_eq!(rt; plan.listens.len(), 2);
    listens_at(&rt, plan.listens.get(0), b"w", Ip::V4(0x7f00_0001), 80);
    listens_at(&rt, plan.listens.get(1), b"v", Ip::V6(1), 81);
    assert_eq!(rt; plan.requests, Some(12));
    assert!(rt; plan.access.is_none());
    Ok(())
}
