//! Where readings are taken.

use crate::named::Named;

/// Where a reading was taken (OCPP 1.6, type Location).
#[derive(Clone, Copy, Debug, PartialEq, Eq)]
pub enum Location {
    Body,
    Cable,
    EV,
    Inlet,
    Outlet,
}

impl Named for Location {
    ghost use Rattle.ocpp_types.specs.Location.{location_name, locations};

    ghost name_of = { location_name };

    ghost names = { locations };

    fn table() -> &'static [(&'static str, Self)] {
        crate::table! { Body, Cable, EV, Inlet, Outlet }
    }

    fn index(&self) -> usize {
        *self as usize
    }
}
