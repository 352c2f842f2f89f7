//! Transactions that the central system starts and stops (OCPP 1.6, sections 5.11 and 5.12).
ghost use Rattle.std.specs.Prelude.{◌≡◌, option_map};
ghost use Rattle.json_data.specs.View.{view};
ghost use Rattle.station_sim.specs.Remote.{ordered_tag, names, start_of, goes_on, open_at, stop_of};

use crate::results::transaction_of;
use crate::session::Session;
use crate::stage::Stage;
use json::Value;
use json_data::{member_of, text_of, unsigned_of};
use ocpp_types::count_characters;

/// The tag of a RemoteStartTransaction that the session takes: none runs, the command is for its connector, and the tag
/// has up to 20 characters.
pub fn start_of<'a>(session: &Session, payload: &Value<'a>) -> Option<&'a str>
    ensures { option_map (λ s. s.now) result ≡ start_of session.now (view payload.now) }
{
    if session.stage.is_idle()
        && names(session.script.connector, member_of(payload, "connectorId"))
    {
        ordered_tag(payload)
    } else {
        None
    }
}

/// The transaction of a RemoteStopTransaction that the session takes.
pub fn stop_of(session: &Session, payload: &Value<'_>) -> Option<i32>
    ensures { result ≡ stop_of session.now (view payload.now) }
{
    let asked = transaction_of(payload)?;
    let transaction = open_transaction(session)?;
    if transaction == asked {
        Some(transaction)
    } else {
        None
    }
}

/// The open transaction of a station that stays, unless its stop is due.
fn open_transaction(session: &Session) -> Option<i32>
    ensures { result ≡ open_at session.now session.now.stage }
{
    match session.stage {
        Stage::Charging { transaction, sent } if session.script.stays && goes_on(session, sent) => {
            Some(transaction)
        }
        _ => None,
    }
}

/// Whether a command began the transaction, or readings are left.
fn goes_on(session: &Session, sent: usize) -> bool
    ensures { result ≡ goes_on session.now sent }
{
    session.ordered.is_some() || sent < session.script.readings.len()
}

/// Whether a command is for that connector: it names it, or none.
fn names(connector: u8, named: Option<&Value<'_>>) -> bool
    ensures { result ≡ names connector (option_map (λ v. view v.now) named.entry) }
{
    match named {
        Some(named) => match unsigned_of(named) {
            Some(number) => number == u64::from(connector),
            None => false,
        },
        None => true,
    }
}

/// The tag that a command names.
fn ordered_tag<'a>(payload: &Value<'a>) -> Option<&'a str>
    ensures { option_map (λ s. s.now) result ≡ ordered_tag (view payload.now) }
{
    let tag = text_of(member_of(payload, "idTag")?)?;
    if count_characters(tag) <= 20 {
        Some(tag)
    } else {
        None
    }
}
