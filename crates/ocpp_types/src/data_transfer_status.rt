//! How vendor messages are answered.

use crate::named::Named;

/// The answer to a DataTransfer (OCPP 1.6, type DataTransferStatus).
#[derive(Clone, Copy, Debug, PartialEq, Eq)]
pub enum DataTransferStatus {
    /// The message was accepted and its contents understood.
    Accepted,
    /// The message was accepted and its contents rejected.
    Rejected,
    /// The vendor is known, the message is not.
    UnknownMessageId,
    /// No handler answers for the vendor.
    UnknownVendorId,
}

impl Named for DataTransferStatus {
    ghost use Rattle.ocpp_types.specs.DataTransferStatus.{data_transfer_status_name, data_transfer_statuses};

    ghost name_of = { data_transfer_status_name };

    ghost names = { data_transfer_statuses };

    fn table() -> &'static [(&'static str, Self)] {
        crate::table! { Accepted, Rejected, UnknownMessageId, UnknownVendorId }
    }

    fn index(&self) -> usize {
        *self as usize
    }
}
