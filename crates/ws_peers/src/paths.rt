//! Where a path leads.
ghost use Rattle.std.specs.Prelude.{◌≡◌, IfOk, OnOk, Ok, option_map};
ghost use Rattle.matchit.specs.Router.{InsertsRead};
ghost use Rattle.matchit.specs.Route.{parse_route};
ghost use Rattle.percent_encoding.specs.Percent.{percent_decode as decoded};
ghost use Rattle.ws_peers.specs.Paths.{table, pattern_of, route_of, station_at, cut};

use crate::routes::Route;
use matchit::Router;
use ocpp_types::{Mem, NoMemory, Text};
use percent_encoding::percent_decode;
use std::alloc::Global;

/// One of the two paths that are known.
#[derive(Clone, Copy, Debug, PartialEq, Eq, Drop)]
pub enum Pattern {
    /// `/ocpp/{operator}/{station}`
    Station,
    /// `/operator/{operator}`
    Operator,
}

/// Where a path leads: `/ocpp/{operator}/{station}` to a station, `/operator/{operator}` to an
/// operator, any other nowhere, which is `None`. The station's name is percent-encoded (OCPP-J 1.6,
/// section 3.1.1) and decoded once; a name that isn't UTF-8 then leads nowhere. A query is no part of
/// `path`.
#[tactic(auto, unfolding(crate::specs::Paths::route_of))]
pub fn route(alloc: Global, path: &str) -> Mem<Option<Route>>
    ensures { IfOk result (λ r. r ≡ route_of path.now) }
{
    match pattern_at(alloc, path)? {
        None => Ok(None),
        Some(Pattern::Station) => match cut(path, "/ocpp/") {
            Some(rest) => match rest.split_once('/') {
                Some((operator, name)) => station(alloc, operator, name),
                None => Ok(None),
            },
            None => Ok(None),
        },
        Some(Pattern::Operator) => match cut(path, "/operator/") {
            Some(operator) => Ok(Some(Route::Operator(Text::copy_of(alloc, operator)?))),
            None => Ok(None),
        },
    }
}

fn pattern_at(alloc: Global, path: &str) -> Mem<Option<Pattern>>
    ensures { IfOk result (λ p. p ≡ pattern_of path.now) }
{
    let router = patterns(alloc)?;
    match router.at(path) {
        Ok(found) => Ok(Some(*found.value)),
        Err(_) => Ok(None),
    }
}

fn patterns(alloc: Global) -> Mem<Router<Pattern>>
    ensures { IfOk result (λ r. r ≡ table) }
{
    let mut router = Router::new(alloc);
    put(&mut router, "/ocpp/{operator}/{station}", Pattern::Station)?;
    put(&mut router, "/operator/{operator}", Pattern::Operator)?;
    Ok(router)
}

/// Adds a pattern. A refusal of the router is answered NoMemory too; it refuses neither of the two
/// patterns.
fn put(router: &mut Router<Pattern>, text: &str, pattern: Pattern) -> Mem<()>
    ensures { OnOk result (InsertsRead (parse_route text.now) pattern router.old router.new (Ok tt)) }
{
    match router.insert(text, pattern) {
        Ok(()) => Ok(()),
        Err(_) => Err(NoMemory),
    }
}

/// What follows `front`, if it begins the path.
#[tactic(auto, using(crate::proofs::PathLaws::cut_found, crate::proofs::PathLaws::cut_missing))]
fn cut<'a>(path: &'a str, front: &str) -> Option<&'a str>
    ensures { option_map (λ s. s.now) result ≡ cut front.now path.now }
{
    match path.strip_prefix(front) {
        Some(rest) => Some(rest),
        None => None,
    }
}

#[tactic(auto, using(crate::proofs::PathLaws::valid_text))]
fn station(alloc: Global, operator: &str, station: &str) -> Mem<Option<Route>>
    ensures { IfOk result (λ r. r ≡ station_at operator.now (decoded station.now)) }
{
    let mut bytes = Vec::new(alloc);
    percent_decode(station.as_bytes()).append_to(&mut bytes)?;
    match str::from_utf8(bytes.as_slice()) {
        Ok(name) => Ok(Some(Route::Station(
            Text::copy_of(alloc, operator)?,
            Text::copy_of(alloc, name)?,
        ))),
        Err(_) => Ok(None),
    }
}
