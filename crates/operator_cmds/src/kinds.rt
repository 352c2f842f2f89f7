//! What members of several commands hold.

use ocpp_payload::{IntegerWithin, TextWithin};

/// A connector, or 0 for the station with all its connectors.
pub const STATION_OR_CONNECTOR: IntegerWithin = IntegerWithin(0, 255);

/// A connector.
pub const CONNECTOR: IntegerWithin = IntegerWithin(1, 255);

/// A signed number of 32 bits.
pub const NUMBER_OF_32_BITS: IntegerWithin = IntegerWithin(-2147483648, 2147483647);

/// A tag.
pub const ID_TAG: TextWithin = TextWithin(20);

/// The version of a list of tags.
pub const LIST_VERSION: IntegerWithin = IntegerWithin(1, 2147483647);
