//! Copies of configurations.
ghost use Rattle.std.specs.Prelude.{◌≡◌, IfOk};

use dyn_config::{
    BalancerDef, Config, Cookie, FailoverDef, Health, MiddlewareDef, MirroringDef, RouterDef,
    ServerDef, ServiceDef, WeightedDef,
};
use px_base::{Bytes, List, Memory};
use std::alloc::Global;

/// A copy of a configuration.
pub(crate) fn copy_config(alloc: Global, config: &Config) -> Result<Config, Memory>
    ensures { IfOk result (λ copy. copy ≡ config.now) }
{
    let routers = copy_routers(alloc, &config.routers)?;
    let services = copy_services(alloc, &config.services)?;
    let middlewares = copy_middlewares(alloc, &config.middlewares)?;
    Ok(Config {
        routers,
        services,
        middlewares,
    })
}

fn copy_routers(
    alloc: Global,
    routers: &List<(Bytes, RouterDef)>,
) -> Result<List<(Bytes, RouterDef)>, Memory>
    ensures { IfOk result (λ copy. copy ≡ routers.now) }
{
    let mut copies = Vec::with_capacity(alloc, routers.len())?;
    for (name, def) in routers.as_slice() {
        copies.push((copy_bytes(alloc, name)?, copy_router(alloc, def)?))?;
    }
    Ok(List::from_vec(copies))
}

fn copy_services(
    alloc: Global,
    services: &List<(Bytes, ServiceDef)>,
) -> Result<List<(Bytes, ServiceDef)>, Memory>
    ensures { IfOk result (λ copy. copy ≡ services.now) }
{
    let mut copies = Vec::with_capacity(alloc, services.len())?;
    for (name, def) in services.as_slice() {
        copies.push((copy_bytes(alloc, name)?, copy_service(alloc, def)?))?;
    }
    Ok(List::from_vec(copies))
}

fn copy_middlewares(
    alloc: Global,
    middlewares: &List<(Bytes, MiddlewareDef)>,
) -> Result<List<(Bytes, MiddlewareDef)>, Memory>
    ensures { IfOk result (λ copy. copy ≡ middlewares.now) }
{
    let mut copies = Vec::with_capacity(alloc, middlewares.len())?;
    for (name, def) in middlewares.as_slice() {
        copies.push((copy_bytes(alloc, name)?, copy_middleware(alloc, def)?))?;
    }
    Ok(List::from_vec(copies))
}

fn copy_router(alloc: Global, def: &RouterDef) -> Result<RouterDef, Memory>
    ensures { IfOk result (λ copy. copy ≡ def.now) }
{
    Ok(RouterDef {
        entry_points: copy_texts(alloc, &def.entry_points)?,
        rule: copy_bytes(alloc, &def.rule)?,
        service: copy_bytes(alloc, &def.service)?,
        middlewares: copy_texts(alloc, &def.middlewares)?,
        priority: def.priority,
        tls: def.tls,
        unsupported: def.unsupported,
    })
}

fn copy_service(alloc: Global, def: &ServiceDef) -> Result<ServiceDef, Memory>
    ensures { IfOk result (λ copy. copy ≡ def.now) }
{
    match def {
        ServiceDef::Balancer(def) => Ok(ServiceDef::Balancer(copy_balancer(alloc, def)?)),
        ServiceDef::Weighted(def) => Ok(ServiceDef::Weighted(copy_weighted(alloc, def)?)),
        ServiceDef::Mirroring(def) => Ok(ServiceDef::Mirroring(copy_mirroring(alloc, def)?)),
        ServiceDef::Failover(def) => Ok(ServiceDef::Failover(copy_failover(alloc, def)?)),
        ServiceDef::Unsupported => Ok(ServiceDef::Unsupported),
    }
}

fn copy_balancer(alloc: Global, def: &BalancerDef) -> Result<BalancerDef, Memory>
    ensures { IfOk result (λ copy. copy ≡ def.now) }
{
    Ok(BalancerDef {
        servers: copy_servers(alloc, &def.servers)?,
        sticky: copy_sticky(alloc, &def.sticky)?,
        health: copy_health(alloc, &def.health)?,
        pass_host: def.pass_host,
        unsupported: def.unsupported,
    })
}

fn copy_servers(alloc: Global, servers: &List<ServerDef>) -> Result<List<ServerDef>, Memory>
    ensures { IfOk result (λ copy. copy ≡ servers.now) }
{
    let mut copies = Vec::with_capacity(alloc, servers.len())?;
    for server in servers.as_slice() {
        copies.push(ServerDef {
            url: copy_bytes(alloc, &server.url)?,
            weight: server.weight,
        })?;
    }
    Ok(List::from_vec(copies))
}

/// A copy of a balancer's or a weighted service's stickiness.
pub fn copy_sticky(alloc: Global, sticky: &Option<Cookie>) -> Result<Option<Cookie>, Memory>
    ensures { IfOk result (λ copy. copy ≡ sticky.now) }
{
    match sticky {
        Some(cookie) => Ok(Some(copy_cookie(alloc, cookie)?)),
        None => Ok(None),
    }
}

fn copy_cookie(alloc: Global, cookie: &Cookie) -> Result<Cookie, Memory>
    ensures { IfOk result (λ copy. copy ≡ cookie.now) }
{
    Ok(Cookie {
        name: copy_bytes(alloc, &cookie.name)?,
        secure: cookie.secure,
        http_only: cookie.http_only,
        same_site: copy_bytes(alloc, &cookie.same_site)?,
        max_age: cookie.max_age,
        path: copy_bytes(alloc, &cookie.path)?,
        domain: copy_bytes(alloc, &cookie.domain)?,
    })
}

/// A copy of a balancer's health check.
pub fn copy_health(alloc: Global, health: &Option<Health>) -> Result<Option<Health>, Memory>
    ensures { IfOk result (λ copy. copy ≡ health.now) }
{
    match health {
        Some(health) => Ok(Some(copy_check(alloc, health)?)),
        None => Ok(None),
    }
}

fn copy_check(alloc: Global, health: &Health) -> Result<Health, Memory>
    ensures { IfOk result (λ copy. copy ≡ health.now) }
{
    Ok(Health {
        path: copy_bytes(alloc, &health.path)?,
        host: copy_bytes(alloc, &health.host)?,
        port: health.port,
        method: copy_bytes(alloc, &health.method)?,
        headers: copy_lines(alloc, &health.headers)?,
        status: health.status,
        interval: health.interval,
        timeout: health.timeout,
        unsupported: health.unsupported,
    })
}

fn copy_weighted(alloc: Global, def: &WeightedDef) -> Result<WeightedDef, Memory>
    ensures { IfOk result (λ copy. copy ≡ def.now) }
{
    Ok(WeightedDef {
        names: copy_texts(alloc, &def.names)?,
        weights: List::from_slice(alloc, def.weights.as_slice())?,
        sticky: copy_sticky(alloc, &def.sticky)?,
    })
}

fn copy_mirroring(alloc: Global, def: &MirroringDef) -> Result<MirroringDef, Memory>
    ensures { IfOk result (λ copy. copy ≡ def.now) }
{
    Ok(MirroringDef {
        service: copy_bytes(alloc, &def.service)?,
        mirrors: copy_texts(alloc, &def.mirrors)?,
        percents: List::from_slice(alloc, def.percents.as_slice())?,
        max_body: def.max_body,
        unsupported: def.unsupported,
    })
}

fn copy_failover(alloc: Global, def: &FailoverDef) -> Result<FailoverDef, Memory>
    ensures { IfOk result (λ copy. copy ≡ def.now) }
{
    Ok(FailoverDef {
        service: copy_bytes(alloc, &def.service)?,
        fallback: copy_bytes(alloc, &def.fallback)?,
    })
}

fn copy_middleware(alloc: Global, def: &MiddlewareDef) -> Result<MiddlewareDef, Memory>
    ensures { IfOk result (λ copy. copy ≡ def.now) }
{
    match def {
        MiddlewareDef::AddPrefix { prefix } => Ok(MiddlewareDef::AddPrefix {
            prefix: copy_bytes(alloc, prefix)?,
        }),
        MiddlewareDef::StripPrefix {
            prefixes,
            unsupported,
        } => Ok(MiddlewareDef::StripPrefix {
            prefixes: copy_texts(alloc, prefixes)?,
            unsupported: *unsupported,
        }),
        MiddlewareDef::ReplacePath { path } => Ok(MiddlewareDef::ReplacePath {
            path: copy_bytes(alloc, path)?,
        }),
        MiddlewareDef::ReplacePathRegex { regex, replacement } => {
            Ok(MiddlewareDef::ReplacePathRegex {
                regex: copy_bytes(alloc, regex)?,
                replacement: copy_bytes(alloc, replacement)?,
            })
        }
        MiddlewareDef::Headers {
            request,
            response,
            unsupported,
        } => Ok(MiddlewareDef::Headers {
            request: copy_lines(alloc, request)?,
            response: copy_lines(alloc, response)?,
            unsupported: *unsupported,
        }),
        MiddlewareDef::IpAllowList {
            ranges,
            unsupported,
        } => Ok(MiddlewareDef::IpAllowList {
            ranges: copy_texts(alloc, ranges)?,
            unsupported: *unsupported,
        }),
        MiddlewareDef::Chain { names } => Ok(MiddlewareDef::Chain {
            names: copy_texts(alloc, names)?,
        }),
        MiddlewareDef::Buffering {
            max_body,
            unsupported,
        } => Ok(MiddlewareDef::Buffering {
            max_body: *max_body,
            unsupported: *unsupported,
        }),
        MiddlewareDef::RedirectScheme {
            scheme,
            port,
            permanent,
        } => Ok(MiddlewareDef::RedirectScheme {
            scheme: copy_bytes(alloc, scheme)?,
            port: copy_bytes(alloc, port)?,
            permanent: *permanent,
        }),
        MiddlewareDef::RedirectRegex {
            regex,
            replacement,
            permanent,
        } => Ok(MiddlewareDef::RedirectRegex {
            regex: copy_bytes(alloc, regex)?,
            replacement: copy_bytes(alloc, replacement)?,
            permanent: *permanent,
        }),
        MiddlewareDef::Unsupported => Ok(MiddlewareDef::Unsupported),
    }
}

fn copy_lines(alloc: Global, lines: &List<(Bytes, Bytes)>) -> Result<List<(Bytes, Bytes)>, Memory>
    ensures { IfOk result (λ copy. copy ≡ lines.now) }
{
    let mut copies = Vec::with_capacity(alloc, lines.len())?;
    for (name, value) in lines.as_slice() {
        copies.push((copy_bytes(alloc, name)?, copy_bytes(alloc, value)?))?;
    }
    Ok(List::from_vec(copies))
}

fn copy_texts(alloc: Global, texts: &List<Bytes>) -> Result<List<Bytes>, Memory>
    ensures { IfOk result (λ copy. copy ≡ texts.now) }
{
    let mut copies = Vec::with_capacity(alloc, texts.len())?;
    for text in texts.as_slice() {
        copies.push(copy_bytes(alloc, text)?)?;
    }
    Ok(List::from_vec(copies))
}

fn copy_bytes(alloc: Global, bytes: &Bytes) -> Result<Bytes, Memory>
    ensures { IfOk result (λ copy. copy ≡ bytes.now) }
{
    Bytes::from_slice(alloc, bytes.as_slice())
}
