//! What a station is answered.

use ocpp_types::{DataTransferStatus, IdTagInfo, Moment, Policy, Text};

/// The answer to a station's request (OCPP 1.6, section 6).
#[derive(Drop)]
pub enum Conf {
    Authorize {
        id_tag_info: IdTagInfo,
    },
    BootNotification {
        current_time: Moment,
        /// Seconds between heartbeats, or before the next boot where the status isn't Accepted.
        interval: u32,
        status: Policy,
    },
    DataTransfer {
        status: DataTransferStatus,
        /// The member `data`.
        content: Option<Text>,
    },
    Heartbeat {
        current_time: Moment,
    },
    /// An answer with no members, as that to a MeterValues or to a notification of a status.
    Empty,
    StartTransaction {
        id_tag_info: IdTagInfo,
        transaction_id: u32,
    },
    StopTransaction {
        id_tag_info: Option<IdTagInfo>,
    },
}
