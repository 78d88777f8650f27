//! Whole commands over memory, with ample memory: a body that always wants more would be proved, and is refused here.
use proxy_cmd::offline;
use px_base::{MemorySink, MemorySource};
use rule_eval::RegexShop;
use std::alloc::Global;
use std::process::Abort;
use std::test::Fail;

const ONE: &str = "[http.routers.r]
rule = \"PathPrefix(`/`)\"
service = \"s\"
[[http.services.s.loadBalancer.servers]]
url = \"http://127.0.0.1:9000\"
";

const RULES: &str = "[http.routers.whole]
rule = \"Host(`A.example`) && !Path(`/x`)\"
service = \"s\"
[http.routers.admin]
rule = \"Path(`/admin`)\"
service = \"s\"
[http.routers.bad]
rule = \"Host(`a`, `b`)\"
priority = 1000
service = \"s\"
[http.routers.local]
rule = \"ClientIP(`10.0.0.0/8`)\"
entryPoints = [\"side\"]
service = \"t\"
[[http.services.s.loadBalancer.servers]]
url = \"http://s_1.test/path\"
[[http.services.t.loadBalancer.servers]]
url = \"http://[::1]:0065535\"
";

const PRIORITIES: &str = "[http.routers.x]
rule = \"PathPrefix(`/`)\"
priority = -1
service = \"s\"
[http.routers.y]
rule = \"PathPrefix(`/`)\"
service = \"s\"
[http.routers.a-b]
rule = \"Path(`/x/y/z/w`)\"
service = \"s\"
[http.routers.a]
rule = \"Path(`/x/y/z/w`)\"
service = \"s\"
[[http.services.s.loadBalancer.servers]]
url = \"http://s\"
";

const WEIGHTED: &str = "[http.routers.web]
rule = \"Host(`example.com`) && PathPrefix(`/app`)\"
service = \"app\"
middlewares = [\"strip\"]
[http.routers.secure]
rule = \"Host(`example.com`)\"
service = \"app\"
[http.routers.secure.tls]
[http.middlewares.strip.stripPrefix]
prefixes = [\"/app\"]
[[http.services.app.weighted.services]]
name = \"v1\"
weight = 3
[[http.services.app.weighted.services]]
name = \"v2\"
weight = 1
[http.services.v1.loadBalancer]
passHostHeader = true
[[http.services.v1.loadBalancer.servers]]
url = \"http://10.0.0.1:8080/\"
[[http.services.v2.loadBalancer.servers]]
url = \"http://10.0.0.2:8080\"
";

const WEIGHTED_TEXT: &str = "generation 1
router 0 secure@file priority 19 disabled Tls
router 1 web@file priority 41 enabled
service app@file weighted node 2
service v1@file balancer node 0
server 0 0 10.0.0.1:8080 weight 1
service v2@file balancer node 1
server 1 0 10.0.0.2:8080 weight 1
middleware strip@file enabled
end
";

const CIRCLE: &str = "[http.routers.r]
rule = \"Path(`/`)\"
service = \"c\"
[[http.services.a.weighted.services]]
name = \"b\"
[[http.services.b.weighted.services]]
name = \"a\"
[[http.services.c.weighted.services]]
name = \"a\"
";

const CIRCLE_TEXT: &str = "generation 1
router 0 r@file priority 9 disabled BadService
service a@file disabled Cycle
service b@file disabled Cycle
service c@file disabled Child
end
";

const STOPPED: &str = "[http.routers.r]
rule = \"Path(`/`)\"
service = \"s\"
middlewares = [\"a\"]
[http.middlewares.a.chain]
middlewares = [\"b\"]
[http.middlewares.b.chain]
middlewares = [\"a\"]
[http.middlewares.c.rateLimit]
average = 5
[[http.services.s.loadBalancer.servers]]
url = \"https://a\"
";

const STOPPED_TEXT: &str = "generation 1
router 0 r@file priority 9 disabled BadService
service s@file disabled Scheme
middleware a@file disabled Cycle
middleware b@file disabled Cycle
middleware c@file disabled Unsupported
end
";

const HEAD: &str = "GET / HTTP/1.1\r\nHost: a.test\r\n\r\n";

const USAGE: &str = "route <config> [--consul <root>] [--entry <name>] [--peer <ip>]
check <config> [--consul <root>]
replay
rehearse <n>                       n is 0 to 100000
serve <name>=<ip>:<port> ... [--file <path>] [--consul <ip>:<port>/<root>]
      [--workers <n>] [--poll <seconds>] [--requests <n>] [--access <prefix>]
";

// One call: its words, what its sources hold, and which of their reads and of the sink's writes fail.
#[derive(Clone, Copy)]
struct Call<'a> {
    words: &'a [&'a str],
    file: &'a [u8],
    file_failing: &'a [u64],
    input: &'a [u8],
    input_failing: &'a [u64],
    out_failing: &'a [u64],
}

const ROUTE: [&str; 2] = ["route", "c.toml"];

fn route<'a>(file: &'a [u8], input: &'a [u8]) -> Call<'a> {
    Call {
        words: &ROUTE,
        file,
        file_failing: &[],
        input,
        input_failing: &[],
        out_failing: &[],
    }
}

fn check(file: &[u8]) -> Call<'_> {
    Call {
        words: &["check", "c.toml"],
        file,
        file_failing: &[],
        input: b"",
        input_failing: &[1],
        out_failing: &[],
    }
}

// Makes the call, and asserts its status and what the sink holds.
fn expect(
    rt: &impl Abort,
    alloc: Global,
    call: Call<'_>,
    status: u8,
    text: &str,
) -> Result<(), Fail> {
    let words = words_of(alloc, call.words)?;
    let mut config = source_of(alloc, call.file, call.file_failing)?;
    let mut input = source_of(alloc, call.input, call.input_failing)?;
    let mut out = MemorySink::new(alloc, Vec::from_slice(alloc, call.out_failing)?);
    let mut shop = RegexShop::new(alloc);
    let got = offline(
        alloc,
        words.as_slice(),
        &mut config,
        &mut input,
        &mut out,
        &mut shop,
    );
    assert_eq!(rt; out.held(), text.as_bytes());
    assert_eq!(rt; got, status);
    Ok(())
}

fn source_of(alloc: Global, bytes: &[u8], failing: &[u64]) -> Result<MemorySource, Fail> {
    let bytes = Vec::from_slice(alloc, bytes)?;
    let failing = Vec::from_slice(alloc, failing)?;
    Ok(MemorySource::new(bytes, failing))
}

fn words_of(alloc: Global, texts: &[&str]) -> Result<Vec<String>, Fail> {
    let mut words = Vec::new(alloc);
    for text in texts {
        words.push(String::from_str(alloc, text)?)?;
    }
    Ok(words)
}

fn blanks(alloc: Global, count: usize) -> Result<Vec<u8>, Fail> {
    let some = [b' '; 4096];
    let mut bytes = Vec::with_capacity(alloc, count)?;
    for _ in 0..count / 4096 {
        bytes.extend_from_slice(&some)?;
    }
    bytes.extend_from_slice(&some[..count % 4096])?;
    Ok(bytes)
}

// A call that fails nowhere.
fn told(
    rt: &impl Abort,
    alloc: Global,
    file: &str,
    input: &str,
    status: u8,
    text: &str,
) -> Result<(), Fail> {
    expect(
        rt,
        alloc,
        route(file.as_bytes(), input.as_bytes()),
        status,
        text,
    )
}

// Where requests go.
fn routed(rt: &impl Abort, alloc: Global) -> Result<(), Fail> {
    told(
        rt,
        alloc,
        ONE,
        HEAD,
        0,
        "forward r@file http://127.0.0.1:9000\n",
    )?;
    told(rt, alloc, "", HEAD, 0, "404\n")?;
    let shop = "GET /y HTTP/1.1\r\nHost: a.EXAMPLE:8080\r\n\r\n";
    told(
        rt,
        alloc,
        RULES,
        shop,
        0,
        "forward whole@file http://s_1.test:80\n",
    )?;
    let other = "GET /x HTTP/1.1\r\nHost: a.EXAMPLE:8080\r\n\r\n";
    told(rt, alloc, RULES, other, 0, "404\n")?;
    let admin = "GET /a/%2e%2e/adm%69n HTTP/1.1\r\nHost: a\r\n\r\n";
    told(
        rt,
        alloc,
        RULES,
        admin,
        0,
        "forward admin@file http://s_1.test:80\n",
    )
}

// The greater priority wins, then the smaller name with its provider, in which `-` comes before `@`.
fn priorities(rt: &impl Abort, alloc: Global) -> Result<(), Fail> {
    told(
        rt,
        alloc,
        PRIORITIES,
        HEAD,
        0,
        "forward y@file http://s:80\n",
    )?;
    let deep = "GET /x/y/z/w HTTP/1.1\r\nHost: a\r\n\r\n";
    told(
        rt,
        alloc,
        PRIORITIES,
        deep,
        0,
        "forward a-b@file http://s:80\n",
    )
}

// The entry point and the peer.
fn options(rt: &impl Abort, alloc: Global) -> Result<(), Fail> {
    asked(
        rt,
        alloc,
        &["route", "--peer=10.1.2.3", "c.toml", "--entry", "side"],
        "forward local@file http://[::1]:65535\n",
    )?;
    asked(
        rt,
        alloc,
        &["route", "c.toml", "--peer", "10.1.2.3"],
        "404\n",
    )
}

fn asked(rt: &impl Abort, alloc: Global, words: &[&str], text: &str) -> Result<(), Fail> {
    let call = Call {
        words,
        file: RULES.as_bytes(),
        file_failing: &[],
        input: HEAD.as_bytes(),
        input_failing: &[],
        out_failing: &[],
    };
    expect(rt, alloc, call, 0, text)
}

// Files that are no configuration.
fn refused_files(rt: &impl Abort, alloc: Global) -> Result<(), Fail> {
    told(rt, alloc, "a = [", HEAD, 3, "config NotToml\n")?;
    told(rt, alloc, "a = 1\n", HEAD, 3, "config Unknown a\n")?;
    let twice = "[http.routers.r]\nrule = \"a\"\nRule = \"b\"\n";
    told(
        rt,
        alloc,
        twice,
        HEAD,
        3,
        "config Twice http.routers.r.rule\n",
    )?;
    let two = "[http.services.s.loadBalancer]\n";
    told(rt, alloc, two, HEAD, 3, "config Later\n")
}

// One router with an allow-list, behind a prefix that is added.
const GUARDED: &str = "[http.routers.r]
rule = \"PathPrefix(`/`)\"
service = \"s\"
middlewares = [\"both\"]
[http.middlewares.both.chain]
middlewares = [\"in\", \"near\"]
[http.middlewares.in.addPrefix]
prefix = \"/in\"
[http.middlewares.near.ipAllowList]
sourceRange = [\"10.0.0.0/8\"]
[[http.services.s.loadBalancer.servers]]
url = \"http://127.0.0.1:9000\"
";

// What middlewares stop, at the place in the flattened chain, and what they let pass.
fn guarded(rt: &impl Abort, alloc: Global) -> Result<(), Fail> {
    told(rt, alloc, GUARDED, HEAD, 0, "stop r@file 1 403\n")?;
    let call = Call {
        words: &["route", "c.toml", "--peer", "10.1.2.3"],
        file: GUARDED.as_bytes(),
        file_failing: &[],
        input: HEAD.as_bytes(),
        input_failing: &[],
        out_failing: &[],
    };
    expect(rt, alloc, call, 0, "forward r@file http://127.0.0.1:9000\n")
}

// What one middleware does; a router whose middleware has a fault takes no part.
fn single(rt: &impl Abort, alloc: Global) -> Result<(), Fail> {
    let near = "[http.middlewares.m.ipAllowList]\nsourceRange = [\"10.0.0.0/8\"]\n";
    by_one(rt, alloc, near, "stop r@file 0 403\n")?;
    let https = "[http.middlewares.m.redirectScheme]\nscheme = \"https\"\n";
    by_one(rt, alloc, https, "stop r@file 0 302\n")?;
    let strip = "[http.middlewares.m.stripPrefix]\nprefixes = [\"/app\"]\n";
    by_one(rt, alloc, strip, "forward r@file http://s:80\n")?;
    by_one(
        rt,
        alloc,
        "[http.middlewares.m.basicAuth]\nx = 1\n",
        "404\n",
    )
}

fn by_one(rt: &impl Abort, alloc: Global, middleware: &str, text: &str) -> Result<(), Fail> {
    let file = with_middleware(alloc, middleware)?;
    told(rt, alloc, file.as_str(), HEAD, 0, text)
}

// One router that names the middleware `m`, its service, and this middleware.
fn with_middleware(alloc: Global, middleware: &str) -> Result<String, Fail> {
    Ok(format!(in alloc;
        "[http.routers.r]\nrule = \"PathPrefix(`/`)\"\nservice = \"s\"\nmiddlewares = [\"m\"]\n{middleware}[[http.services.s.loadBalancer.servers]]\nurl = \"http://s\"\n"
    )?)
}

// Inputs that are no request that is routed.
fn refused_requests(rt: &impl Abort, alloc: Global) -> Result<(), Fail> {
    told(rt, alloc, ONE, "", 4, "request Part\n")?;
    let escape = "GET /%2 HTTP/1.1\r\nHost: a\r\n\r\n";
    told(rt, alloc, ONE, escape, 4, "request BadEscape\n")?;
    told(
        rt,
        alloc,
        ONE,
        "GET / HTTP/1.1\r\n\r\n",
        4,
        "request NoHost\n",
    )?;
    let behind = "GET / HTTP/1.1\r\nHost: a\r\n\r\nX";
    told(rt, alloc, ONE, behind, 4, "request Trailing\n")?;
    let old = "GET / HTTP/1.0\r\n\r\n";
    told(rt, alloc, ONE, old, 4, "request Later\n")
}

// Words that are no command, whatever the sources would give.
fn usages(rt: &impl Abort, alloc: Global) -> Result<(), Fail> {
    usage(rt, alloc, &[])?;
    usage(rt, alloc, &["route"])?;
    usage(rt, alloc, &["route", "-x"])?;
    usage(rt, alloc, &["route", "a", "b"])?;
    usage(rt, alloc, &["route", "a", "--entry", ""])
}

fn usage(rt: &impl Abort, alloc: Global, words: &[&str]) -> Result<(), Fail> {
    let call = Call {
        words,
        file: b"",
        file_failing: &[1],
        input: b"",
        input_failing: &[],
        out_failing: &[],
    };
    expect(rt, alloc, call, 2, USAGE)
}

// Sources and a sink that fail: nothing is written, or a proper prefix.
fn failures(rt: &impl Abort, alloc: Global) -> Result<(), Fail> {
    let mut call = route(ONE.as_bytes(), HEAD.as_bytes());
    call.file_failing = &[1];
    expect(rt, alloc, call, 5, "")?;
    let mut call = route(ONE.as_bytes(), HEAD.as_bytes());
    call.input_failing = &[2];
    expect(rt, alloc, call, 5, "")?;
    // A file that is refused comes first.
    call.file = b"a = 1";
    expect(rt, alloc, call, 3, "config Unknown a\n")?;
    let mut call = route(ONE.as_bytes(), HEAD.as_bytes());
    call.out_failing = &[1];
    expect(rt, alloc, call, 6, "")
}

// A file of 1 MiB and an input of 16 KiB are read, and one byte more is too long.
fn limits(rt: &impl Abort, alloc: Global) -> Result<(), Fail> {
    let file = blanks(alloc, 1_048_576)?;
    expect(rt, alloc, route(&file, HEAD.as_bytes()), 0, "404\n")?;
    let file = blanks(alloc, 1_048_577)?;
    expect(rt, alloc, route(&file, HEAD.as_bytes()), 8, "too long\n")?;
    let input = blanks(alloc, 16_384)?;
    expect(
        rt,
        alloc,
        route(ONE.as_bytes(), &input),
        4,
        "request BadHead\n",
    )?;
    let input = blanks(alloc, 16_385)?;
    expect(rt, alloc, route(ONE.as_bytes(), &input), 8, "too long\n")
}

// How configurations would be served. No input is read.
#[test]
fn checks(rt: HostRuntime) -> Result<(), Fail> {
    let alloc = rt.alloc();
    expect(&rt, alloc, check(WEIGHTED.as_bytes()), 0, WEIGHTED_TEXT)?;
    expect(&rt, alloc, check(CIRCLE.as_bytes()), 0, CIRCLE_TEXT)?;
    expect(&rt, alloc, check(b""), 0, "generation 0\nend\n")?;
    expect(&rt, alloc, check(b"a = 1"), 3, "config Unknown a\n")?;
    expect(&rt, alloc, check(STOPPED.as_bytes()), 0, STOPPED_TEXT)
}

// A file of more than 1 MiB.
#[test]
fn limits_of_checks(rt: HostRuntime) -> Result<(), Fail> {
    let alloc = rt.alloc();
    let long = blanks(alloc, 1_048_577)?;
    expect(&rt, alloc, check(&long), 8, "too long\n")
}

#[test]
fn whole_calls(rt: HostRuntime) -> Result<(), Fail> {
    let alloc = rt.alloc();
    routed(&rt, alloc)?;
    priorities(&rt, alloc)?;
    options(&rt, alloc)?;
    refused_files(&rt, alloc)?;
    refused_requests(&rt, alloc)
}

#[test]
fn ends(rt: HostRuntime) -> Result<(), Fail> {
    let alloc = rt.alloc();
    usages(&rt, alloc)?;
    failures(&rt, alloc)?;
    limits(&rt, alloc)
}

#[test]
fn middlewares(rt: HostRuntime) -> Result<(), Fail> {
    let alloc = rt.alloc();
    guarded(&rt, alloc)?;
    single(&rt, alloc)
}
