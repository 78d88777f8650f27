//! Configurations by their text, and their lines.
use dyn_config::Config;
use file_provider::read_file_config;
use generation_text::generation_text;
use provider_merge::merge;
use rule_eval::RegexShop;
use runtime_config::{RuntimeConfig, build_runtime};
use std::alloc::Global;
use std::process::Abort;
use std::test::Fail;

fn config(alloc: Global, text: &str) -> Result<Config, Fail> {
    read_file_config(alloc, text.as_bytes()).map_err(|_| Fail::from("a configuration"))
}

// What a file and Consul declare, each written as TOML, as it runs.
pub(crate) fn runtime(alloc: Global, file: &str, consul: &str) -> Result<RuntimeConfig, Fail> {
    let file = config(alloc, file)?;
    let consul = config(alloc, consul)?;
    let merged = merge(alloc, file, consul)?;
    Ok(build_runtime(alloc, merged, &mut RegexShop::new(alloc))?)
}

// The lines of a configuration that runs under the number 7.
fn lines(alloc: Global, config: &RuntimeConfig) -> Result<Vec<u8>, Fail> {
    let mut out = Vec::new(alloc);
    generation_text(alloc, 7, config, &mut out)?;
    Ok(out)
}

// What a file and Consul declare has these lines between the number and the end.
pub(crate) fn tells(
    rt: &impl Abort,
    alloc: Global,
    file: &str,
    consul: &str,
    wanted: &str,
) -> Result<(), Fail> {
    let config = runtime(alloc, file, consul)?;
    let found = lines(alloc, &config)?;
    let wanted = format!(in alloc; "generation 7\n{wanted}end\n")?;
    assert_eq!(rt; found.as_slice(), wanted.as_bytes());
    Ok(())
}

// A text with another after it so many times.
pub(crate) fn repeated(
    alloc: Global,
    start: &str,
    entry: &str,
    count: u32,
) -> Result<String, Fail> {
    let mut text = String::from_str(alloc, start)?;
    for _ in 0..count {
        text.push_str(entry)?;
    }
    Ok(text)
}
