//! A station at a moment.

use ocpp_types::{Moment, Text};

/// The station that an event is of, and the moment of the event.
#[derive(Clone, Copy, Drop)]
pub struct StationAt<'a> {
    /// The station's operator.
    pub op: &'a Text,
    /// The station's name.
    pub station: &'a Text,
    /// The moment of the event.
    pub moment: Moment,
}
