//! A message of a station at a moment.

use ocpp_types::Text;
use registry::StationAt;

/// The station that a message is of, the moment, and the message's id (OCPP-J 1.6, section 4.1.4).
#[derive(Clone, Copy, Drop)]
pub struct MessageAt<'a> {
    /// The station and the moment.
    pub at: &'a StationAt<'a>,
    /// The id of the call, or of the call that is answered.
    pub id: &'a Text,
}

/// A call of a station at a moment.
#[derive(Clone, Copy, Drop)]
pub struct CallAt<'a> {
    /// The station and the moment.
    pub at: &'a StationAt<'a>,
    /// The id of the call.
    pub id: &'a Text,
    /// The text of its frame.
    pub text: &'a Text,
    /// The index that the station's row may have among all.
    pub near: usize,
}
