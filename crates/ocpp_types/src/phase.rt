//! Phases of a reading.

use crate::named::Named;

/// Where in the wiring a reading was taken (OCPP 1.6, type Phase).
#[derive(Clone, Copy, Debug, PartialEq, Eq)]
pub enum Phase {
    L1,
    L2,
    L3,
    N,
    L1N,
    L2N,
    L3N,
    L1L2,
    L2L3,
    L3L1,
}

impl Named for Phase {
    ghost use Rattle.ocpp_types.specs.Phase.{phase_name, phases};

    ghost name_of = { phase_name };

    ghost names = { phases };

    fn table() -> &'static [(&'static str, Self)] {
        crate::table! {
            "L1" => L1, "L2" => L2, "L3" => L3, "N" => N, "L1-N" => L1N, "L2-N" => L2N,
            "L3-N" => L3N, "L1-L2" => L1L2, "L2-L3" => L2L3, "L3-L1" => L3L1
        }
    }

    fn index(&self) -> usize {
        *self as usize
    }
}
