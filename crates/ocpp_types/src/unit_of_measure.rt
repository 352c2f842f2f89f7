//! Units of readings.

use crate::named::Named;

/// The unit of a reading (OCPP 1.6, type UnitOfMeasure). `Celcius`, which some
/// stations send, is read as `Celsius`.
#[derive(Clone, Copy, Debug, PartialEq, Eq)]
pub enum UnitOfMeasure {
    Wh,
    KWh,
    Varh,
    Kvarh,
    W,
    KW,
    VA,
    KVA,
    Var,
    Kvar,
    A,
    V,
    Celsius,
    Fahrenheit,
    K,
    Percent,
}

impl Named for UnitOfMeasure {
    ghost use Rattle.ocpp_types.specs.UnitOfMeasure.{unit_of_measure_name, units_of_measure};

    ghost name_of = { unit_of_measure_name };

    ghost names = { units_of_measure };

    fn table() -> &'static [(&'static str, Self)] {
        crate::table! {
            "Wh" => Wh, "kWh" => KWh, "varh" => Varh, "kvarh" => Kvarh, "W" => W, "kW" => KW,
            "VA" => VA, "kVA" => KVA, "var" => Var, "kvar" => Kvar, "A" => A, "V" => V,
            "Celsius" => Celsius, "Fahrenheit" => Fahrenheit, "K" => K, "Percent" => Percent,
            "Celcius" => Celsius
        }
    }

    fn index(&self) -> usize {
        *self as usize
    }
}
