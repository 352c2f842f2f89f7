//! What a meter shows.

use crate::location::Location;
use crate::measurand::Measurand;
use crate::phase::Phase;
use crate::reading_context::ReadingContext;
use crate::text::Text;
use crate::unit_of_measure::UnitOfMeasure;
use crate::value_format::ValueFormat;

/// A reading of a meter (OCPP 1.6, type SampledValue). A member that the station left out has the standard's
/// default, except the unit, which is none.
#[derive(Clone, Drop)]
pub struct SampledValue {
    /// The value as it was sent.
    pub value: Text,
    pub context: ReadingContext,
    pub format: ValueFormat,
    pub measurand: Measurand,
    pub phase: Option<Phase>,
    pub location: Location,
    pub unit: Option<UnitOfMeasure>,
}
