//! Whole scripts.
use replay_cmd::replay;
use rule_eval::RegexShop;
use std::alloc::Global;
use std::process::Abort;
use std::test::Fail;

// A script, and the status and the text that it is answered with.
type Case = (&'static str, u8, &'static str);

const PASSED: Case = (
    "config file
|[http.routers.r]
|rule = \"PathPrefix(`/`)\"
|service = \"s\"
|[[http.services.s.loadBalancer.servers]]
|url = \"http://127.0.0.1:9000\"
publish
arrive web 127.0.0.1
bytes 0 GET / HTTP/1.1\\r\\nHost: a.test\\r\\n\\r\\n
pin 0
look 0
draw 0
dial 0
took 1 all
bytes 1 HTTP/1.1 200 OK\\r\\nContent-Length: 2\\r\\n\\r\\nok
took 0 all
end 0
",
    0,
    "published 1
link 0 sent HTTP/1.1 200 OK\\r\\nContent-Length: 2\\r\\n\\r\\nok
link 1 to 127.0.0.1:9000 sent GET / HTTP/1.1\\r\\nHost: a.test\\r\\nX-Forwarded-For: 127.0.0.1\\r\\nX-Forwarded-Host: a.test\\r\\nX-Forwarded-Port: 80\\r\\nX-Forwarded-Proto: http\\r\\nX-Real-Ip: 127.0.0.1\\r\\nConnection: close\\r\\n\\r\\n
note 0 1 gen 1 router 0 status 200 Passed looks 0:1 picks 0:0-1:0 turns - backs 1
note 0 end Client
",
);

// The server's link fails in place of its reply.
const FAILED: Case = (
    "config file
|[http.routers.r]
|rule = \"PathPrefix(`/`)\"
|service = \"s\"
|[[http.services.s.loadBalancer.servers]]
|url = \"http://127.0.0.1:9000\"
publish
arrive web 127.0.0.1
bytes 0 GET / HTTP/1.1\\r\\nHost: a.test\\r\\n\\r\\n
pin 0
look 0
draw 0
dial 0
took 1 all
fail 1
took 0 all
end 0",
    0,
    "published 1
link 0 sent HTTP/1.1 502 Bad Gateway\\r\\nContent-Type: text/plain; charset=utf-8\\r\\nContent-Length: 16\\r\\n\\r\\n502 bad gateway\\n
link 1 to 127.0.0.1:9000 sent GET / HTTP/1.1\\r\\nHost: a.test\\r\\nX-Forwarded-For: 127.0.0.1\\r\\nX-Forwarded-Host: a.test\\r\\nX-Forwarded-Port: 80\\r\\nX-Forwarded-Proto: http\\r\\nX-Real-Ip: 127.0.0.1\\r\\nConnection: close\\r\\n\\r\\n
note 0 1 gen 1 router 0 status 502 BackFailed 1 looks 0:1 picks 0:0-1:0 turns - backs 1
note 0 end Client
",
);

// An empty file, which changes nothing: no router takes the request.
const NOT_FOUND: Case = (
    "config file
arrive web 127.0.0.1
bytes 0 GET / HTTP/1.1\\r\\nHost: a.test\\r\\n\\r\\n
pin 0
took 0 all
end 0
",
    0,
    "published 0
link 0 sent HTTP/1.1 404 Not Found\\r\\nContent-Type: text/plain; charset=utf-8\\r\\nContent-Length: 19\\r\\n\\r\\n404 page not found\\n
note 0 1 gen 0 router - status 404 NoRouter looks - picks - turns - backs -
note 0 end Client
",
);

const CASES: [Case; 10] = [
    PASSED,
    FAILED,
    NOT_FOUND,
    ("\n\npublish\n", 4, "script 3 NotEnabled publish Idle\n"),
    ("pin 0", 4, "script 1 NoSuchLink\n"),
    ("tick 1\n", 4, "script 1 Later\n"),
    ("config file\n|a = 1\n", 4, "script 1 Config\n"),
    ("\nconfig file\n|a = [\npin 0\n", 4, "script 2 Config\n"),
    (
        "config file\n|[http.middlewares.m.addPrefix]\n|prefix = \"/a\"\n",
        4,
        "script 1 Later\n",
    ),
    ("|a\n", 4, "script 1 Grammar\n"),
];

fn expect(rt: &impl Abort, alloc: Global, case: Case) -> Result<(), Fail> {
    let (script, status, text) = case;
    let mut shop = RegexShop::new(alloc);
    let answer = replay(alloc, script.as_bytes(), &mut shop)?;
    assert_eq!(rt; answer.text.as_slice(), text.as_bytes());
    assert_eq!(rt; answer.status, status);
    Ok(())
}

#[test]
fn scripts(rt: HostRuntime) -> Result<(), Fail> {
    let alloc = rt.alloc();
    for case in CASES {
        expect(&rt, alloc, case)?;
    }
    Ok(())
}
