//! Definitions out of tables.

ghost use Rattle.std.specs.Prelude.{◌≡◌, ◌||◌, map, nat_le, codes, IfOk};
ghost use Rattle.std.specs.List.{list_any};
ghost use Rattle.dyn_config.specs.Readings.{value_under, has_option, natural_or, is_other, router_of, cookie_of, sticky_under, health_of, health_under, weight_of, server_of, preserves_path, balancer_of, name_of, weighted_of, percent_of, mirroring_of, failover_of};

use crate::lists::{elements, lines_under, texts_under};
use crate::options::{
    flag_under, has_option, is_other, natural_under, number_under, ranged_text, text_under,
    time_under, value_under,
};
use crate::schema::{NumberRange, TextRange};
use crate::{
    BalancerDef, Cookie, FailoverDef, Health, MirroringDef, RouterDef, ServerDef, WeightedDef,
};
use field_tree::{Style, Tree};
use px_base::{Bytes, List, Memory};
use std::alloc::Global;

pub(crate) fn read_router(alloc: Global, style: Style, tree: &Tree) -> Result<RouterDef, Memory>
    ensures { IfOk result (λ router. router ≡ router_of style tree.now) }
{
    let entry_points = texts_under(alloc, style, b"entryPoints", tree)?;
    let rule = text_under(alloc, b"rule", tree)?;
    let service = text_under(alloc, b"service", tree)?;
    let middlewares = texts_under(alloc, style, b"middlewares", tree)?;
    let priority = number_under(style, NumberRange::All, 0, b"priority", tree);
    let tls = has_option(b"tls", tree);
    let unsupported = is_other(b"v3", b"ruleSyntax", tree);
    Ok(RouterDef {
        entry_points,
        rule,
        service,
        middlewares,
        priority,
        tls,
        unsupported,
    })
}

fn read_cookie(alloc: Global, style: Style, tree: &Tree) -> Result<Cookie, Memory>
    ensures { IfOk result (λ cookie. cookie ≡ cookie_of style tree.now) }
{
    let name = ranged_text(alloc, TextRange::CookieName, b"", b"name", tree)?;
    let same_site = ranged_text(alloc, TextRange::SameSite, b"", b"sameSite", tree)?;
    let path = ranged_text(alloc, TextRange::CookieText, b"/", b"path", tree)?;
    let domain = ranged_text(alloc, TextRange::CookieText, b"", b"domain", tree)?;
    let secure = flag_under(style, false, b"secure", tree);
    let http_only = flag_under(style, false, b"httpOnly", tree);
    let max_age = number_under(style, NumberRange::All, 0, b"maxAge", tree);
    Ok(Cookie {
        name,
        secure,
        http_only,
        same_site,
        max_age,
        path,
        domain,
    })
}

fn read_sticky(alloc: Global, style: Style, tree: &Tree) -> Result<Option<Cookie>, Memory>
    ensures { IfOk result (λ sticky. sticky ≡ sticky_under style tree.now) }
{
    match value_under(b"sticky", tree) {
        None => Ok(None),
        Some(sticky) => match value_under(b"cookie", sticky) {
            None => Ok(None),
            Some(cookie) => {
                let cookie = read_cookie(alloc, style, cookie)?;
                Ok(Some(cookie))
            }
        },
    }
}

fn read_health(alloc: Global, style: Style, tree: &Tree) -> Result<Health, Memory>
    ensures { IfOk result (λ health. health ≡ health_of style tree.now) }
{
    let path = ranged_text(alloc, TextRange::ProbePath, b"/", b"path", tree)?;
    let host = text_under(alloc, b"hostname", tree)?;
    let method = ranged_text(alloc, TextRange::Whatever, b"GET", b"method", tree)?;
    let headers = lines_under(alloc, b"headers", tree)?;
    let port = short(style, b"port", tree);
    let status = short(style, b"status", tree);
    let interval = time_under(style, 30_000, b"interval", tree);
    let timeout = time_under(style, 5_000, b"timeout", tree);
    let unsupported = is_no_http(tree);
    Ok(Health {
        path,
        host,
        port,
        method,
        headers,
        status,
        interval,
        timeout,
        unsupported,
    })
}

fn short(style: Style, key: &[u8], tree: &Tree) -> u16
    ensures { result ≡ natural_or (λ n. nat_le n 65535) 0 style (value_under key.now tree.now) }
{
    natural_under(style, 65_535, 0, key, tree) as u16
}

fn is_no_http(tree: &Tree) -> bool
    ensures { result ≡ (is_other (codes "http") (value_under (codes "scheme") tree.now) || is_other (codes "http") (value_under (codes "mode") tree.now)) }
{
    is_other(b"http", b"scheme", tree) || is_other(b"http", b"mode", tree)
}

fn read_health_under(alloc: Global, style: Style, tree: &Tree) -> Result<Option<Health>, Memory>
    ensures { IfOk result (λ health. health ≡ health_under style tree.now) }
{
    match value_under(b"healthCheck", tree) {
        None => Ok(None),
        Some(health) => {
            let health = read_health(alloc, style, health)?;
            Ok(Some(health))
        }
    }
}

fn weight(style: Style, tree: &Tree) -> u32
    ensures { result ≡ weight_of style tree.now }
{
    natural_under(style, 2_147_483_647, 1, b"weight", tree)
}

fn read_server(alloc: Global, style: Style, tree: &Tree) -> Result<ServerDef, Memory>
    ensures { IfOk result (λ server. server ≡ server_of style tree.now) }
{
    let url = text_under(alloc, b"url", tree)?;
    Ok(ServerDef {
        url,
        weight: weight(style, tree),
    })
}

fn read_servers(alloc: Global, style: Style, found: &[&Tree]) -> Result<List<ServerDef>, Memory>
    ensures { IfOk result (λ servers. servers ≡ map (server_of style) (map (λ element. element.now) found.now)) }
{
    let mut servers = List::new(alloc);
    for at in 0..found.len() {
        servers.push(read_server(alloc, style, found[at])?)?;
    }
    Ok(servers)
}

fn some_preserves_path(style: Style, found: &[&Tree]) -> bool
    ensures { result ≡ list_any (preserves_path style) (map (λ element. element.now) found.now) }
{
    for at in 0..found.len() {
        let element = found[at];
        if flag_under(style, false, b"preservePath", element) {
            return true;
        }
    }
    false
}

pub(crate) fn read_balancer(alloc: Global, style: Style, tree: &Tree) -> Result<BalancerDef, Memory>
    ensures { IfOk result (λ balancer. balancer ≡ balancer_of style tree.now) }
{
    let list = elements(alloc, style, b"servers", tree)?;
    let found = list.as_slice();
    let servers = read_servers(alloc, style, found)?;
    let sticky = read_sticky(alloc, style, tree)?;
    let health = read_health_under(alloc, style, tree)?;
    let pass_host = flag_under(style, true, b"passHostHeader", tree);
    let unsupported = is_more_than_a_list(style, tree, found);
    Ok(BalancerDef {
        servers,
        sticky,
        health,
        pass_host,
        unsupported,
    })
}

fn is_more_than_a_list(style: Style, tree: &Tree, found: &[&Tree]) -> bool
    ensures { result ≡ (has_option (codes "serversTransport") tree.now || is_other (codes "wrr") (value_under (codes "strategy") tree.now) ||
        list_any (preserves_path style) (map (λ element. element.now) found.now)) }
{
    has_option(b"serversTransport", tree)
        || is_other(b"wrr", b"strategy", tree)
        || some_preserves_path(style, found)
}

fn read_names(alloc: Global, found: &[&Tree]) -> Result<List<Bytes>, Memory>
    ensures { IfOk result (λ names. names ≡ map name_of (map (λ element. element.now) found.now)) }
{
    let mut names = List::new(alloc);
    for at in 0..found.len() {
        names.push(text_under(alloc, b"name", found[at])?)?;
    }
    Ok(names)
}

fn read_weights(alloc: Global, style: Style, found: &[&Tree]) -> Result<List<u32>, Memory>
    ensures { IfOk result (λ weights. weights ≡ map (weight_of style) (map (λ element. element.now) found.now)) }
{
    let mut weights = List::new(alloc);
    for at in 0..found.len() {
        weights.push(weight(style, found[at]))?;
    }
    Ok(weights)
}

pub(crate) fn read_weighted(alloc: Global, style: Style, tree: &Tree) -> Result<WeightedDef, Memory>
    ensures { IfOk result (λ weighted. weighted ≡ weighted_of style tree.now) }
{
    let found = elements(alloc, style, b"services", tree)?;
    let names = read_names(alloc, found.as_slice())?;
    let weights = read_weights(alloc, style, found.as_slice())?;
    let sticky = read_sticky(alloc, style, tree)?;
    Ok(WeightedDef {
        names,
        weights,
        sticky,
    })
}

fn percent(style: Style, tree: &Tree) -> u8
    ensures { result ≡ percent_of style tree.now }
{
    natural_under(style, 100, 0, b"percent", tree) as u8
}

fn read_percents(alloc: Global, style: Style, found: &[&Tree]) -> Result<List<u8>, Memory>
    ensures { IfOk result (λ percents. percents ≡ map (percent_of style) (map (λ element. element.now) found.now)) }
{
    let mut percents = List::new(alloc);
    for at in 0..found.len() {
        percents.push(percent(style, found[at]))?;
    }
    Ok(percents)
}

pub(crate) fn read_mirroring(
    alloc: Global,
    style: Style,
    tree: &Tree,
) -> Result<MirroringDef, Memory>
    ensures { IfOk result (λ mirroring. mirroring ≡ mirroring_of style tree.now) }
{
    let service = text_under(alloc, b"service", tree)?;
    let list = elements(alloc, style, b"mirrors", tree)?;
    let found = list.as_slice();
    let mirrors = read_names(alloc, found)?;
    let percents = read_percents(alloc, style, found)?;
    let max_body = number_under(style, NumberRange::Size, -1, b"maxBodySize", tree);
    let mirrors_bodies = flag_under(style, true, b"mirrorBody", tree);
    Ok(MirroringDef {
        service,
        mirrors,
        percents,
        max_body,
        unsupported: !mirrors_bodies,
    })
}

pub(crate) fn read_failover(alloc: Global, tree: &Tree) -> Result<FailoverDef, Memory>
    ensures { IfOk result (λ failover. failover ≡ failover_of tree.now) }
{
    let service = text_under(alloc, b"service", tree)?;
    let fallback = text_under(alloc, b"fallback", tree)?;
    Ok(FailoverDef { service, fallback })
}
