//! Reservations of connectors (docs/RULES.md, Reservations).
ghost use Rattle.std.specs.Prelude.{◌≡◌, Err, IfOk};
ghost use Rattle.hub_rows.specs.Reads.{OnlyReads};
ghost use Rattle.hub_rows.specs.Lookups.{lookups_at};
ghost use Rattle.holdings.specs.Reservation.{cancel_rule, cancelled, connector_of, has_current, is_current, reservation_id, reserve_rule, reserved};

use hub_rows::{Edit, HoldingEdit, Reservation, ReservationId, Store, StoreFault};
use id_tags::refuse_tag;
use ocpp_types::{FieldName, Mem, Moment, Refusal, Text, copied};
use operator_cmds::{CancelReservation, ReserveNow};
use std::alloc::Global;

/// The refusal of a reservation: BadField `expiryDate` where it doesn't expire after the moment,
/// then TagRefused where its tag isn't accepted (OCPP 1.6, section 5.13).
pub fn plan_reserve<S: Store>(
    alloc: Global,
    store: &mut S,
    op: &str,
    fields: &ReserveNow,
    moment: Moment,
) -> Result<Option<Refusal>, StoreFault>
    ensures reads { OnlyReads S.view store.old store.new result }
    ensures refusal { (S.view store.new).clean → IfOk result (λ r. r
        ≡ reserve_rule fields.now moment (lookups_at op.now (S.view store.old).rows)) }
{
    if fields.expiry_date <= moment {
        return Ok(Some(Refusal::BadField(FieldName::new("expiryDate"))));
    }
    refuse_tag(alloc, store, op, fields.id_tag.as_str(), moment)
}

/// The refusal of a cancellation: NoSuchReservation where no reservation of that id counts at the
/// station (OCPP 1.6, section 5.1). One counts while the moment is before its expiry.
pub fn plan_cancel<S: Store>(
    store: &mut S,
    op: &str,
    station: &str,
    fields: &CancelReservation,
    moment: Moment,
) -> Result<Option<Refusal>, StoreFault>
    ensures reads { OnlyReads S.view store.old store.new result }
    ensures refusal { (S.view store.new).clean → IfOk result (λ r. r
        ≡ cancel_rule station.now fields.now moment (lookups_at op.now (S.view store.old).rows)) }
{
    let Some(id) = reservation_id(fields.reservation_id) else {
        return Ok(Some(Refusal::NoSuchReservation));
    };
    let expiry = store.reserved_until(op, station, id)?;
    if has_current(moment, expiry) {
        Ok(None)
    } else {
        Ok(Some(Refusal::NoSuchReservation))
    }
}

/// The edit of a reservation that the station has accepted. A command whose connector or id is out
/// of its range is never sent, and edits nothing.
pub fn reserved(station: &Text, fields: &ReserveNow) -> Mem<Option<Edit>>
    ensures { IfOk result (λ e. e ≡ reserved station.now fields.now) }
{
    let Some(connector) = connector_of(fields.connector_id) else {
        return Ok(None);
    };
    let Some(id) = reservation_id(fields.reservation_id) else {
        return Ok(None);
    };
    Ok(Some(Edit::Holdings(HoldingEdit::ReservationPut {
        station: station.clone()?,
        id,
        reservation: reservation(connector, fields)?,
    })))
}

fn reservation(connector: u8, fields: &ReserveNow) -> Mem<Reservation>
    ensures { IfOk result (λ r. r ≡ record { connector = connector; tag = fields.now.id_tag; parent = fields.now.parent_id_tag; expiry = fields.now.expiry_date }) }
{
    Ok(Reservation {
        connector,
        tag: fields.id_tag.clone()?,
        parent: copied(&fields.parent_id_tag)?,
        expiry: fields.expiry_date,
    })
}

/// The edit of a cancellation that the station has accepted.
pub fn cancelled(station: &Text, fields: &CancelReservation) -> Mem<Option<Edit>>
    ensures { IfOk result (λ e. e ≡ cancelled station.now fields.now) }
{
    let Some(id) = reservation_id(fields.reservation_id) else {
        return Ok(None);
    };
    Ok(Some(Edit::Holdings(HoldingEdit::ReservationDropped {
        station: station.clone()?,
        id,
    })))
}

/// The connector of that number, 0 to 255.
fn connector_of(number: i64) -> Option<u8>
    ensures { result ≡ connector_of number }
{
    match u8::try_from(number) {
        Ok(connector) => Some(connector),
        Err(_) => None,
    }
}

/// The id of that number, signed and of 32 bits.
fn reservation_id(number: i64) -> Option<ReservationId>
    ensures { result ≡ reservation_id number }
{
    match i32::try_from(number) {
        Ok(id) => Some(ReservationId::new(id)),
        Err(_) => None,
    }
}

/// Whether a reservation that expires then counts at a moment.
pub fn is_current(moment: Moment, expiry: Moment) -> bool
    ensures { result ≡ is_current moment expiry }
{
    moment < expiry
}

fn has_current(moment: Moment, expiry: Option<Moment>) -> bool
    ensures { result ≡ has_current moment expiry }
{
    match expiry {
        Some(expiry) => is_current(moment, expiry),
        None => false,
    }
}
