//! The proxy's program: its commands over real files, streams and sockets.
#![tactic(auto)]

ghost use Rattle.std.specs.Prelude.{◌<◌, IfOk, vec_len};

use command_words::{Command, WordFault, read_words};
use link_world::ServePlan;
use mio_world::{Access, BindFault, MioWorld};
use proxy_cmd::offline;
use publisher::StdFiles;
use px_base::{Bytes, StdSink, StdSource};
use rule_eval::RegexShop;
use serve_cmd::serve;
use std::alloc::{AllocError, Global};
use std::env;
use std::fs::{self, File, OpenOptions};
use std::io::{self, Read};
use std::process::ExitCode;
use std::sync::Wait;

/// The status where memory ran out before a command was called.
const NO_MEMORY: u8 = 7;

/// The status where a note was refused.
const REFUSED: u8 = 10;

/// The status where a listener can't be bound.
const NOT_BOUND: u8 = 11;

/// A configuration file, or the lack of one, which fails each read.
#[derive(Drop)]
enum ConfigFile {
    Open(File),
    Missing,
}

impl Read for ConfigFile {
    fn read(&mut self, buf: &mut [u8]) -> io::Result<usize> {
        match self {
            ConfigFile::Open(file) => file.read(buf),
            ConfigFile::Missing => Err(io::Error::from(io::ErrorKind::NotFound)),
        }
    }
}

impl ConfigFile {
    // The file with this path. Paths come from words, so they are UTF-8.
    fn open(rt: &HostRuntime, path: &[u8]) -> ConfigFile {
        let Ok(path) = str::from_utf8(path) else {
            return ConfigFile::Missing;
        };
        match fs::open(rt, path) {
            Ok(file) => ConfigFile::Open(file),
            Err(_) => ConfigFile::Missing,
        }
    }
}

// The words after the program's name. Words that aren't UTF-8 are no command, as no words are.
fn words_of(rt: &HostRuntime, alloc: Global) -> Result<Vec<String>, AllocError> {
    let mut words = Vec::new(alloc);
    match env::args(rt) {
        Ok(args) => {
            for word in args.skip(1) {
                words.push(word)?;
            }
        }
        Err(error) if error.kind() == io::ErrorKind::OutOfMemory => return Err(AllocError),
        Err(_) => {}
    }
    Ok(words)
}

// Runs an offline command over this configuration file, or says how the program is called.
fn run_offline(rt: &HostRuntime, alloc: Global, words: &[String], config: ConfigFile) -> u8 {
    let mut config = StdSource::new(config);
    let mut input = StdSource::new(rt.reader());
    let mut out = StdSink::new(io::writer(rt));
    let mut shop = RegexShop::new(alloc);
    offline(alloc, words, &mut config, &mut input, &mut out, &mut shop)
}

// Where the notes of the first worker go: to the file `<prefix>.0`, which is written anew.
fn access_of(
    rt: &HostRuntime,
    alloc: Global,
    prefix: &Option<Bytes>,
) -> Result<Access<StdSink<File>>, AllocError> {
    let Some(prefix) = prefix else {
        return Ok(Access::Nowhere);
    };
    let mut name = Vec::from_slice(alloc, prefix.as_slice())?;
    name.extend_from_slice(b".0")?;
    let Ok(name) = str::from_utf8(name.as_slice()) else {
        return Ok(Access::Refused);
    };
    match OpenOptions::new()
        .write(true)
        .create(true)
        .truncate(true)
        .open(rt, name)
    {
        Ok(file) => Ok(Access::Lines(StdSink::new(file))),
        Err(_) => Ok(Access::Refused),
    }
}

// The world of the plan's listeners, alone in a list.
fn worlds_of(
    rt: HostRuntime,
    alloc: Global,
    plan: &ServePlan,
) -> Result<Vec<MioWorld<HostRuntime, StdSink<File>>>, BindFault>
    ensures { IfOk result (λ worlds. 0 < vec_len worlds) }
{
    let Ok(access) = access_of(&rt, alloc, &plan.access) else {
        return Err(BindFault::Memory);
    };
    let world = MioWorld::bind(rt, alloc, plan.listens.as_slice(), access, plan.requests)?;
    let mut worlds = Vec::new(alloc);
    match worlds.push(world) {
        Ok(()) => Ok(worlds),
        Err(_) => Err(BindFault::Memory),
    }
}

// The status of `serve`, or where it would be 0 and a note was refused, that of a fault of the world: the notes of the ends
// that a stop makes may be the first that are refused.
fn status_of(status: u8, worlds: &[MioWorld<HostRuntime, StdSink<File>>]) -> u8 {
    if status == 0 && worlds.iter().any(|world| world.has_refused()) {
        return REFUSED;
    }
    status
}

// Serves over real sockets, and answers the status.
fn run_serve(rt: HostRuntime, waits: &impl Wait, alloc: Global, plan: &ServePlan) -> u8 {
    match worlds_of(rt, alloc, plan) {
        Ok(worlds) => {
            let files = StdFiles::new(rt, alloc);
            let out = StdSink::new(io::writer(&rt));
            let shop = RegexShop::new(alloc);
            let end = serve(waits, alloc, plan, worlds, files, out, shop);
            status_of(end.status, end.worlds.as_slice())
        }
        Err(BindFault::Bind { .. }) => NOT_BOUND,
        Err(BindFault::Memory) => NO_MEMORY,
    }
}

fn main(rt: HostRuntime) -> ExitCode {
    let alloc = rt.alloc();
    let Ok(words) = words_of(&rt, alloc) else {
        return ExitCode::from(NO_MEMORY);
    };
    let status = match read_words(alloc, words.as_slice()) {
        Ok(Command::Serve(plan)) => run_serve(rt, &rt, alloc, &plan),
        Ok(Command::Route(plan)) => {
            let config = ConfigFile::open(&rt, plan.config.as_slice());
            run_offline(&rt, alloc, words.as_slice(), config)
        }
        Ok(Command::Check(plan)) => {
            let config = ConfigFile::open(&rt, plan.config.as_slice());
            run_offline(&rt, alloc, words.as_slice(), config)
        }
        Err(WordFault::Memory) => NO_MEMORY,
        _ => run_offline(&rt, alloc, words.as_slice(), ConfigFile::Missing),
    };
    ExitCode::from(status)
}
