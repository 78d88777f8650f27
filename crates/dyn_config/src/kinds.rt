//! Services and middlewares by their kinds.

ghost use Rattle.std.specs.Prelude.{◌≡◌, IfOk, not};
ghost use Rattle.std.specs.List.{list_any};
ghost use Rattle.field_tree.specs.Trees.{entries_of};
ghost use Rattle.dyn_config.specs.Walk.{is_known, same_key};
ghost use Rattle.dyn_config.specs.Shapes.{rows_of};
ghost use Rattle.dyn_config.specs.Readings.{service_of, service_by, middleware_of, middleware_by, rewrite_by, replace_path_regex_of, lines_by, headers_of, ip_allow_list_of, other_by, buffering_of, redirect_by, redirect_scheme_of, redirect_regex_of, has_others};

use crate::lists::{lines_under, texts_under};
use crate::options::{flag_under, has_option, number_under, text_under};
use crate::readers::{read_balancer, read_failover, read_mirroring, read_weighted};
use crate::rows::is_known;
use crate::schema::{NumberRange, Table};
use crate::{MiddlewareDef, ServiceDef};
use field_tree::{Fields, Style, Tree};
use px_base::{Memory, fold_equal};
use std::alloc::Global;

pub(crate) fn read_service(alloc: Global, style: Style, tree: &Tree) -> Result<ServiceDef, Memory>
    ensures { IfOk result (λ service. service ≡ service_of style tree.now) }
{
    match tree.table() {
        None => Ok(ServiceDef::Unsupported),
        Some(fields) => {
            if fields.len() == 0 {
                return Ok(ServiceDef::Unsupported);
            }
            service_by(alloc, style, fields.key(0), fields.value(0))
        }
    }
}

fn service_by(alloc: Global, style: Style, kind: &[u8], tree: &Tree) -> Result<ServiceDef, Memory>
    ensures { IfOk result (λ service. service ≡ service_by style kind.now tree.now) }
{
    if fold_equal(b"loadBalancer", kind) {
        let balancer = read_balancer(alloc, style, tree)?;
        return Ok(ServiceDef::Balancer(balancer));
    }
    if fold_equal(b"weighted", kind) {
        let weighted = read_weighted(alloc, style, tree)?;
        return Ok(ServiceDef::Weighted(weighted));
    }
    if fold_equal(b"mirroring", kind) {
        let mirroring = read_mirroring(alloc, style, tree)?;
        return Ok(ServiceDef::Mirroring(mirroring));
    }
    if fold_equal(b"failover", kind) {
        let failover = read_failover(alloc, tree)?;
        return Ok(ServiceDef::Failover(failover));
    }
    Ok(ServiceDef::Unsupported)
}

pub(crate) fn read_middleware(
    alloc: Global,
    style: Style,
    tree: &Tree,
) -> Result<MiddlewareDef, Memory>
    ensures { IfOk result (λ middleware. middleware ≡ middleware_of style tree.now) }
{
    match tree.table() {
        None => Ok(MiddlewareDef::Unsupported),
        Some(fields) => {
            if fields.len() == 0 {
                return Ok(MiddlewareDef::Unsupported);
            }
            middleware_by(alloc, style, fields.key(0), fields.value(0))
        }
    }
}

fn middleware_by(
    alloc: Global,
    style: Style,
    kind: &[u8],
    tree: &Tree,
) -> Result<MiddlewareDef, Memory>
    ensures { IfOk result (λ middleware. middleware ≡ middleware_by style kind.now tree.now) }
{
    if fold_equal(b"addPrefix", kind) {
        let prefix = text_under(alloc, b"prefix", tree)?;
        return Ok(MiddlewareDef::AddPrefix { prefix });
    }
    if fold_equal(b"stripPrefix", kind) {
        let prefixes = texts_under(alloc, style, b"prefixes", tree)?;
        let unsupported = has_option(b"forceSlash", tree);
        return Ok(MiddlewareDef::StripPrefix {
            prefixes,
            unsupported,
        });
    }
    read_rewrite(alloc, style, kind, tree)
}

fn read_rewrite(
    alloc: Global,
    style: Style,
    kind: &[u8],
    tree: &Tree,
) -> Result<MiddlewareDef, Memory>
    ensures { IfOk result (λ middleware. middleware ≡ rewrite_by style kind.now tree.now) }
{
    if fold_equal(b"replacePath", kind) {
        let path = text_under(alloc, b"path", tree)?;
        return Ok(MiddlewareDef::ReplacePath { path });
    }
    if fold_equal(b"replacePathRegex", kind) {
        return read_replace_path_regex(alloc, tree);
    }
    read_lines(alloc, style, kind, tree)
}

fn read_replace_path_regex(alloc: Global, tree: &Tree) -> Result<MiddlewareDef, Memory>
    ensures { IfOk result (λ middleware. middleware ≡ replace_path_regex_of tree.now) }
{
    let regex = text_under(alloc, b"regex", tree)?;
    let replacement = text_under(alloc, b"replacement", tree)?;
    Ok(MiddlewareDef::ReplacePathRegex { regex, replacement })
}

fn read_lines(
    alloc: Global,
    style: Style,
    kind: &[u8],
    tree: &Tree,
) -> Result<MiddlewareDef, Memory>
    ensures { IfOk result (λ middleware. middleware ≡ lines_by style kind.now tree.now) }
{
    if fold_equal(b"headers", kind) {
        return read_headers(alloc, tree);
    }
    if fold_equal(b"ipAllowList", kind) {
        return read_ip_allow_list(alloc, style, tree);
    }
    read_other(alloc, style, kind, tree)
}

fn read_headers(alloc: Global, tree: &Tree) -> Result<MiddlewareDef, Memory>
    ensures { IfOk result (λ middleware. middleware ≡ headers_of tree.now) }
{
    let request = lines_under(alloc, b"customRequestHeaders", tree)?;
    let response = lines_under(alloc, b"customResponseHeaders", tree)?;
    let unsupported = has_others(Table::Headers, tree);
    Ok(MiddlewareDef::Headers {
        request,
        response,
        unsupported,
    })
}

fn read_ip_allow_list(alloc: Global, style: Style, tree: &Tree) -> Result<MiddlewareDef, Memory>
    ensures { IfOk result (λ middleware. middleware ≡ ip_allow_list_of style tree.now) }
{
    let ranges = texts_under(alloc, style, b"sourceRange", tree)?;
    let unsupported = has_others(Table::IpAllowList, tree);
    Ok(MiddlewareDef::IpAllowList {
        ranges,
        unsupported,
    })
}

fn read_other(
    alloc: Global,
    style: Style,
    kind: &[u8],
    tree: &Tree,
) -> Result<MiddlewareDef, Memory>
    ensures { IfOk result (λ middleware. middleware ≡ other_by style kind.now tree.now) }
{
    if fold_equal(b"chain", kind) {
        let names = texts_under(alloc, style, b"middlewares", tree)?;
        return Ok(MiddlewareDef::Chain { names });
    }
    if fold_equal(b"buffering", kind) {
        return Ok(read_buffering(style, tree));
    }
    read_redirect(alloc, style, kind, tree)
}

fn read_buffering(style: Style, tree: &Tree) -> MiddlewareDef
    ensures { result ≡ buffering_of style tree.now }
{
    let max_body = number_under(style, NumberRange::All, 0, b"maxRequestBodyBytes", tree);
    let unsupported = has_others(Table::Buffering, tree);
    MiddlewareDef::Buffering {
        max_body,
        unsupported,
    }
}

fn read_redirect(
    alloc: Global,
    style: Style,
    kind: &[u8],
    tree: &Tree,
) -> Result<MiddlewareDef, Memory>
    ensures { IfOk result (λ middleware. middleware ≡ redirect_by style kind.now tree.now) }
{
    if fold_equal(b"redirectScheme", kind) {
        return read_redirect_scheme(alloc, style, tree);
    }
    if fold_equal(b"redirectRegex", kind) {
        return read_redirect_regex(alloc, style, tree);
    }
    Ok(MiddlewareDef::Unsupported)
}

fn read_redirect_scheme(alloc: Global, style: Style, tree: &Tree) -> Result<MiddlewareDef, Memory>
    ensures { IfOk result (λ middleware. middleware ≡ redirect_scheme_of style tree.now) }
{
    let scheme = text_under(alloc, b"scheme", tree)?;
    let port = text_under(alloc, b"port", tree)?;
    let permanent = flag_under(style, false, b"permanent", tree);
    Ok(MiddlewareDef::RedirectScheme {
        scheme,
        port,
        permanent,
    })
}

fn read_redirect_regex(alloc: Global, style: Style, tree: &Tree) -> Result<MiddlewareDef, Memory>
    ensures { IfOk result (λ middleware. middleware ≡ redirect_regex_of style tree.now) }
{
    let regex = text_under(alloc, b"regex", tree)?;
    let replacement = text_under(alloc, b"replacement", tree)?;
    let permanent = flag_under(style, false, b"permanent", tree);
    Ok(MiddlewareDef::RedirectRegex {
        regex,
        replacement,
        permanent,
    })
}

/// Whether a table has a key that is no option of it.
fn has_others(table: Table, tree: &Tree) -> bool
    ensures { result ≡ has_others (rows_of table) tree.now }
{
    match tree.table() {
        None => false,
        Some(fields) => is_unknown_in(table, fields),
    }
}

fn is_unknown_in(table: Table, fields: &Fields<Tree>) -> bool
    ensures { result ≡ list_any (λ entry. not (is_known (rows_of table) entry.0)) fields.now }
{
    for at in 0..fields.len() {
        if !is_known(table, fields.key(at)) {
            return true;
        }
    }
    false
}
