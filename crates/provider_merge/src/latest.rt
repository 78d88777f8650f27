//! What messages change, and what the latest ones declare.
ghost use Rattle.std.specs.Prelude.{◌≡◌, ◌≤◌, ◌↔◌, IsTrue, IfOk, length};
ghost use Rattle.std.specs.Option.{option_copied};
ghost use Rattle.provider_merge.specs.Messages.{message_of, IsNews, IsAccepted, IsConfigOf, IsMergedOf};

use crate::alone::{declares_nothing, empty_config};
use crate::both::merge;
use crate::copying::copy_config;
use crate::message::Message;
use crate::providers::Latest;
use dyn_config::{Config, Merged, equal};
use px_base::Memory;
use std::alloc::Global;

/// Whether a message changes what is published.
#[derive(Clone, Copy, Debug, PartialEq, Eq)]
pub enum Changed {
    No,
    Yes,
}

/// Takes a provider's message. It changes nothing where its configuration equals that of the provider's latest one, or
/// declares nothing and is the provider's first; else it replaces the provider's latest one as a whole. It takes no memory.
pub fn accept(latest: &mut Latest, message: Message) -> Changed
    ensures { IsAccepted latest.old message result latest.new }
{
    if !is_news(latest, &message) {
        return Changed::No;
    }
    if message.provider == 0 {
        latest.file = Some(message);
    } else {
        latest.consul = Some(message);
    }
    Changed::Yes
}

fn is_news(latest: &Latest, message: &Message) -> bool
    ensures { IsTrue result ↔ IsNews latest.now message.now }
{
    match held(latest, message.provider) {
        Some(held) => !equal(&held.config, &message.config),
        None => !declares_nothing(&message.config),
    }
}

fn held(latest: &Latest, provider: u32) -> Option<&Message>
    ensures { option_copied result ≡ message_of latest.now provider }
{
    if provider == 0 {
        latest.file.as_ref()
    } else {
        latest.consul.as_ref()
    }
}

/// A copy of the latest messages.
pub fn copy(alloc: Global, latest: &Latest) -> Result<Latest, Memory>
    ensures { IfOk result (λ other. other ≡ latest.now) }
{
    Ok(Latest {
        file: copy_held(alloc, &latest.file)?,
        consul: copy_held(alloc, &latest.consul)?,
    })
}

fn copy_held(alloc: Global, held: &Option<Message>) -> Result<Option<Message>, Memory>
    ensures { IfOk result (λ other. other ≡ held.now) }
{
    match held {
        Some(message) => Ok(Some(copy_message(alloc, message)?)),
        None => Ok(None),
    }
}

fn copy_message(alloc: Global, message: &Message) -> Result<Message, Memory>
    ensures { IfOk result (λ other. other ≡ message.now) }
{
    Ok(Message {
        provider: message.provider,
        number: message.number,
        config: copy_config(alloc, &message.config)?,
    })
}

/// What the latest messages declare, as one, under qualified names. A provider that has sent none declares nothing.
pub fn merge_latest(alloc: Global, latest: &Latest) -> Result<Merged, Memory>
    ensures merged { IfOk result (IsMergedOf latest.now) }
    ensures few { IfOk result (λ m. length m.services ≤ 1000) }
{
    let file = config_of(alloc, &latest.file)?;
    let consul = config_of(alloc, &latest.consul)?;
    merge(alloc, file, consul)
}

fn config_of(alloc: Global, message: &Option<Message>) -> Result<Config, Memory>
    ensures { IfOk result (IsConfigOf message.now) }
{
    match message {
        Some(message) => copy_config(alloc, &message.config),
        None => Ok(empty_config(alloc)),
    }
}
