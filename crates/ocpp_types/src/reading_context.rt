//! When a reading was taken.

use crate::named::Named;

/// When a reading was taken (OCPP 1.6, type ReadingContext).
#[derive(Clone, Copy, Debug, PartialEq, Eq)]
pub enum ReadingContext {
    InterruptionBegin,
    InterruptionEnd,
    Other,
    SampleClock,
    SamplePeriodic,
    TransactionBegin,
    TransactionEnd,
    Trigger,
}

impl Named for ReadingContext {
    ghost use Rattle.ocpp_types.specs.ReadingContext.{reading_context_name, reading_contexts};

    ghost name_of = { reading_context_name };

    ghost names = { reading_contexts };

    fn table() -> &'static [(&'static str, Self)] {
        crate::table! {
            "Interruption.Begin" => InterruptionBegin, "Interruption.End" => InterruptionEnd,
            "Other" => Other, "Sample.Clock" => SampleClock, "Sample.Periodic" => SamplePeriodic,
            "Transaction.Begin" => TransactionBegin, "Transaction.End" => TransactionEnd,
            "Trigger" => Trigger
        }
    }

    fn index(&self) -> usize {
        *self as usize
    }
}
