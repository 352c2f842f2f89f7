//! The head of a request.
ghost use Rattle.std.specs.Prelude.{◌≡◌, ℕ, List, ◌≤◌, length, IfOk, Some, option_map};
ghost use Rattle.httparse.specs.Grammar.{RequestHead, ReadsRequest};
ghost use Rattle.ws_handshake.specs.declared.head.TheConstants.{MAX_FIELDS};
ghost use Rattle.ws_handshake.specs.Heads.{BytesJudged, HeadJudged, Judged, PathJudged, UpgradeJudged, VersionJudged, KeyJudged, HasFieldsWithin, fields_in, asks_upgrade, lacks_host, is_version, plain_answer, read_answer};

use crate::answer::Answer;
use crate::fields::{count_of, has_foreign_origin, lists, offered, only_value};
use crate::subprotocol::Offered;
use http::uri::{Uri, UriError};
use httparse::Status;
use httparse::spans::{EMPTY_HEADER_SPAN, HeaderSpan, parse_request};
use ocpp_types::{Mem, NoMemory, Text};
use std::alloc::Global;
use websocket::handshake::server::accept_key;
use ws_peers::Route;
use ws_peers::paths::route;

/// The most bytes of a head.
pub const MAX_HEAD: usize = 8192;

/// The most fields of a head.
const MAX_FIELDS: usize = 64;

/// What the first bytes of a connection ask for.
#[derive(Drop)]
pub enum Asked {
    /// More of the head is to come.
    More,
    /// It makes no connection, and is answered so.
    Plain(Answer),
    /// An upgrade to WebSocket.
    Upgraded(Upgrade),
}

/// An upgrade to WebSocket that can be answered.
#[derive(Drop)]
pub struct Upgrade {
    /// Where its path leads.
    pub route: Route,
    /// Which names of OCPP 1.6 it offers as its subprotocol.
    pub offered: Offered,
    /// The value of `Sec-WebSocket-Accept` that answers its key.
    pub accept: [u8; 28],
    /// How many bytes its head has.
    pub len: usize,
}

/// What the first bytes of a connection ask for (RFC 9112; RFC 6455, section 4.2.1). A head has at most 8,192 bytes and
/// 64 fields. Of pages in a browser those of these origins alone are served (RFC 6454, section 7).
pub fn judge(alloc: Global, bytes: &[u8], origins: &[Text]) -> Mem<Asked>
    ensures judged { IfOk result (λ a. (h : RequestHead) (rest : List ℕ) → ReadsRequest bytes.now h rest
        → length h.fields ≤ MAX_FIELDS → HeadJudged origins.now h a) }
    ensures bytes { IfOk result (BytesJudged origins.now bytes.now) }
{
    let mut fields = [EMPTY_HEADER_SPAN; MAX_FIELDS];
    match parse_request(bytes, &mut fields) {
        Ok(Status::Complete(found)) => {
            let request = Request {
                method: found.method.of(bytes),
                minor: found.version,
                bytes,
                fields: &fields[..found.headers],
                origins,
                len: found.len,
            };
            judge_request(alloc, found.path.of(bytes), &request)
        }
        Ok(Status::Partial) if bytes.len() < MAX_HEAD => Ok(Asked::More),
        Ok(Status::Partial) | Err(httparse::Error::TooManyHeaders) => Ok(Asked::Plain(
            Answer::TooLarge,
        )),
        Err(_) => Ok(Asked::Plain(Answer::BadRequest)),
    }
}

/// A request with a whole head.
#[derive(Drop)]
struct Request<'b> {
    method: &'b [u8],
    minor: u8,
    bytes: &'b [u8],
    fields: &'b [HeaderSpan],
    /// The origins whose pages are served.
    origins: &'b [Text],
    /// How many bytes the head has.
    len: usize,
}

/// What a request with that target asks for.
fn judge_request(alloc: Global, target: &[u8], request: &Request<'_>) -> Mem<Asked>
    requires { HasFieldsWithin request.now }
    ensures { IfOk result (Judged request.now.origins.now target.now request.now.method.now request.now.minor
        (fields_in request.now) request.now.len) }
{
    if lacks_host(request) {
        return Ok(Asked::Plain(Answer::BadRequest));
    }
    match Uri::from_bytes(alloc, target) {
        Ok(uri) => judge_path(alloc, uri.path(), request),
        Err(UriError::OutOfMemory) => Err(NoMemory),
        Err(UriError::Invalid(_)) => Ok(Asked::Plain(Answer::BadRequest)),
    }
}

/// Whether a request of HTTP/1.1 doesn't name its host once (RFC 9112, section 3.2).
fn lacks_host(request: &Request<'_>) -> bool
    requires { HasFieldsWithin request.now }
    ensures { result ≡ lacks_host request.now.minor (fields_in request.now) }
{
    request.minor == 1 && count_of(request.bytes, request.fields, b"Host") != 1
}

/// What a request of that path asks for.
fn judge_path(alloc: Global, path: &str, request: &Request<'_>) -> Mem<Asked>
    requires { HasFieldsWithin request.now }
    ensures { IfOk result (PathJudged request.now.origins.now path.now request.now.method.now request.now.minor
        (fields_in request.now) request.now.len) }
{
    let route = route(alloc, path)?;
    if asks_upgrade(request) {
        Ok(judge_upgrade(route, request))
    } else {
        Ok(Asked::Plain(plain_answer(request.method, path, route.as_ref())))
    }
}

/// Whether a request asks for an upgrade to WebSocket (RFC 9110, section 7.8).
fn asks_upgrade(request: &Request<'_>) -> bool
    requires { HasFieldsWithin request.now }
    ensures { result ≡ asks_upgrade request.now.method.now request.now.minor
        (fields_in request.now) }
{
    request.method == b"GET".as_slice()
        && request.minor == 1
        && lists(request.bytes, request.fields, b"Connection", b"upgrade")
        && lists(request.bytes, request.fields, b"Upgrade", b"websocket")
}

/// The answer to a request that asks for no upgrade.
fn plain_answer(method: &[u8], path: &str, route: Option<&Route>) -> Answer
    ensures { result ≡ plain_answer method.now path.now (option_map (λ r. r.now) route.entry) }
{
    match read_answer(method, path, route) {
        None => Answer::NotFound,
        Some(answer) if method == b"GET".as_slice() || method == b"HEAD".as_slice() => answer,
        Some(_) => Answer::NotAllowed,
    }
}

/// The answer to a GET or a HEAD that asks for no upgrade, if its path leads somewhere.
fn read_answer(method: &[u8], path: &str, route: Option<&Route>) -> Option<Answer>
    ensures { result ≡ read_answer method.now path.now (option_map (λ r. r.now) route.entry) }
{
    if route.is_some() {
        return Some(Answer::UpgradeRequired);
    }
    match path {
        "/health" => Some(Answer::Healthy),
        "/metrics" if method == b"GET".as_slice() => Some(Answer::Metrics),
        "/metrics" => Some(Answer::MetricsHead),
        _ => None,
    }
}

/// An upgrade to that route, if its path leads to one and no page of another origin asks.
fn judge_upgrade(route: Option<Route>, request: &Request<'_>) -> Asked
    requires { HasFieldsWithin request.now }
    ensures { UpgradeJudged request.now.origins.now route (fields_in request.now) request.now.len result }
{
    let Some(route) = route else {
        return Asked::Plain(Answer::NotFound);
    };
    if has_foreign_origin(request.bytes, request.fields, request.origins) {
        return Asked::Plain(Answer::Forbidden);
    }
    judge_version(route, request)
}

/// An upgrade to that route: its version is 13 (RFC 6455, section 4.2.2), and its key is the base64 of 16 bytes.
fn judge_version(route: Route, request: &Request<'_>) -> Asked
    requires { HasFieldsWithin request.now }
    ensures { VersionJudged route (fields_in request.now) request.now.len result }
{
    let version = only_value(request.bytes, request.fields, b"Sec-WebSocket-Version");
    if !is_version(version) {
        return Asked::Plain(Answer::UpgradeRequired);
    }
    match only_value(request.bytes, request.fields, b"Sec-WebSocket-Key") {
        Some(key) => judge_key(route, request, key),
        None => Asked::Plain(Answer::BadRequest),
    }
}

/// An upgrade to that route with that key.
fn judge_key(route: Route, request: &Request<'_>, key: &[u8]) -> Asked
    requires { HasFieldsWithin request.now }
    ensures { KeyJudged route (fields_in request.now) request.now.len (Some key.now) result }
{
    match accept_key(key) {
        Ok(accept) => Asked::Upgraded(Upgrade {
            route,
            offered: offered(request.bytes, request.fields),
            accept,
            len: request.len,
        }),
        Err(_) => Asked::Plain(Answer::BadRequest),
    }
}

fn is_version(value: Option<&[u8]>) -> bool
    ensures { result ≡ is_version (option_map (λ v. v.now) value.entry) }
{
    match value {
        Some(value) => value == b"13".as_slice(),
        None => false,
    }
}
