//! What a connection stands for.
ghost use Rattle.std.specs.Prelude.{◌≡◌};
ghost use Rattle.ws_peers.specs.Routes.{is_station, is_operator, is_operator_of, key_of, named_operator};

use crate::keys::station_key;
use ocpp_types::Text;

/// What a connection stands for, by the path that it asked for.
#[derive(Clone, Drop)]
pub enum Route {
    /// A station: its operator and its name.
    Station(Text, Text),
    /// An operator.
    Operator(Text),
}

impl Route {
    /// Whether it is that station of that operator.
    pub fn is_station(&self, op: &str, station: &str) -> bool
        ensures { result ≡ is_station op.now station.now self.now }
    {
        match self {
            Route::Station(own, name) => own.as_str() == op && name.as_str() == station,
            Route::Operator(_) => false,
        }
    }

    /// Whether it is that operator.
    pub fn is_operator_of(&self, op: &str) -> bool
        ensures { result ≡ is_operator_of op.now self.now }
    {
        match self {
            Route::Operator(own) => own.as_str() == op,
            Route::Station(_, _) => false,
        }
    }

    /// Whether it is an operator.
    pub fn is_operator(&self) -> bool
        ensures { result ≡ is_operator self.now }
    {
        matches!(self, Route::Operator(_))
    }

    /// The operator that it names.
    pub fn operator(&self) -> &Text
        ensures { result.now ≡ named_operator self.now }
    {
        match self {
            Route::Station(op, _) | Route::Operator(op) => op,
        }
    }

    /// Its key: equal stations have equal keys.
    pub(crate) fn key(&self) -> u64
        ensures { result ≡ key_of self.now }
    {
        match self {
            Route::Station(op, station) => station_key(op.as_str(), station.as_str()),
            Route::Operator(_) => 0,
        }
    }
}
