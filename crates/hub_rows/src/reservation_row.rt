//! The record of a reservation.
ghost use Rattle.std.specs.Prelude.{◌≡◌};
ghost use Rattle.hub_rows.specs.Reservations.{shifted, unshifted};

use crate::named_row::NamedRow;
use crate::ordered::Keyed;
use ocpp_types::{Moment, Text};
use std::cmp::Ordering;
use std::marker::Model;

/// A connector that a station keeps for a driver. Its key is `op`, `station` and `id`.
#[derive(Clone, Drop)]
pub struct ReservationRow {
    /// The operator that hosts the station.
    pub op: Text,
    pub station: Text,
    pub id: ReservationId,
    pub reservation: Reservation,
}

/// What is reserved (OCPP 1.6, ReserveNow.req).
#[derive(Clone, Drop)]
pub struct Reservation {
    /// 0 is any connector of the station.
    pub connector: u8,
    /// The tag as the operator gave it.
    pub tag: Text,
    /// The tag of the group that may use it too.
    pub parent: Option<Text>,
    /// It counts before this moment.
    pub expiry: Moment,
}

/// The number that an operator gives to a reservation: signed, of 32 bits.
///
/// A contract sees it shifted by 2147483648 into the naturals, so that ids are ordered by value.
#[derive(Clone, Copy, Debug, PartialEq, Eq, PartialOrd, Ord)]
pub struct ReservationId {
    shifted: u32,
}

impl Model for ReservationId {
    ghost use Rattle.std.specs.Prelude.{ℕ, ◌≤◌};

    ghost Value = { ℕ };

    ghost view = { λ id. id.shifted };

    ghost inverse = { λ n. record { shifted = n } };

    ghost invariant = { λ id. id.shifted ≤ 4_294_967_295 };
}

impl ReservationId {
    /// The id of that number.
    pub fn new(id: i32) -> ReservationId
        ensures { result ≡ shifted id }
    {
        ReservationId {
            shifted: (id as i64 + 2147483648) as u32,
        }
    }

    /// The number.
    pub fn get(self) -> i32
        ensures { result ≡ unshifted self }
    {
        (self.shifted as i64 - 2147483648) as i32
    }
}

impl Keyed for ReservationRow {
    ghost use Rattle.hub_rows.specs.Rows.{reservation_key};

    ghost key = { reservation_key };

    fn compare(&self, other: &ReservationRow) -> Ordering {
        self.op
            .cmp(&other.op)
            .then(self.station.cmp(&other.station))
            .then(self.id.cmp(&other.id))
    }
}

impl NamedRow for ReservationRow {
    ghost op = { λ r. r.op };

    ghost name = { λ r. r.station };

    fn op(&self) -> &str {
        self.op.as_str()
    }

    fn name(&self) -> &str {
        self.station.as_str()
    }
}
