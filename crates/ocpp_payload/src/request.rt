//! What a station asks.

use crate::readings::MeterValue;
use ocpp_types::{
    BootNotification, Boxed, ChargePointErrorCode, ChargePointStatus, DiagnosticsStatus,
    FirmwareStatus, Listed, Reason, Text,
};

/// A request of a station (OCPP 1.6, section 6).
#[derive(Drop)]
pub enum Request {
    Authorize(Authorize),
    BootNotification(Boxed<BootNotification>),
    DataTransfer(DataTransfer),
    DiagnosticsStatusNotification(DiagnosticsStatusNotification),
    FirmwareStatusNotification(FirmwareStatusNotification),
    Heartbeat,
    MeterValues(MeterValues),
    StartTransaction(StartTransaction),
    StatusNotification(Boxed<StatusNotification>),
    StopTransaction(StopTransaction),
}

/// May this tag charge? (OCPP 1.6, Authorize.req)
#[derive(Drop)]
pub struct Authorize {
    pub id_tag: Text,
}

/// A message of a vendor (OCPP 1.6, DataTransfer.req).
#[derive(Drop)]
pub struct DataTransfer {
    pub vendor_id: Text,
    pub message_id: Option<Text>,
    /// The member `data`.
    pub content: Option<Text>,
}

/// What became of an upload of diagnostics (OCPP 1.6, DiagnosticsStatusNotification.req).
#[derive(Drop)]
pub struct DiagnosticsStatusNotification {
    pub status: DiagnosticsStatus,
}

/// What became of a firmware update (OCPP 1.6, FirmwareStatusNotification.req).
#[derive(Drop)]
pub struct FirmwareStatusNotification {
    pub status: FirmwareStatus,
}

/// Readings of a connector's meter (OCPP 1.6, MeterValues.req).
#[derive(Drop)]
pub struct MeterValues {
    /// 0 is the station's main meter.
    pub connector_id: u8,
    pub transaction_id: Option<i32>,
    /// One or more.
    pub meter_value: Listed<MeterValue>,
}

/// A transaction has begun (OCPP 1.6, StartTransaction.req).
#[derive(Drop)]
pub struct StartTransaction {
    /// 1 or more.
    pub connector_id: u8,
    pub id_tag: Text,
    /// In Wh.
    pub meter_start: i64,
    pub reservation_id: Option<i32>,
    /// Milliseconds since 1970.
    pub timestamp: i64,
}

/// The status of a connector (OCPP 1.6, StatusNotification.req).
#[derive(Drop)]
pub struct StatusNotification {
    /// 0 is the station itself.
    pub connector_id: u8,
    pub error_code: ChargePointErrorCode,
    pub info: Option<Text>,
    pub status: ChargePointStatus,
    /// Milliseconds since 1970.
    pub timestamp: Option<i64>,
    pub vendor_id: Option<Text>,
    pub vendor_error_code: Option<Text>,
}

/// A transaction has ended (OCPP 1.6, StopTransaction.req).
#[derive(Drop)]
pub struct StopTransaction {
    pub id_tag: Option<Text>,
    /// In Wh.
    pub meter_stop: i64,
    /// Milliseconds since 1970.
    pub timestamp: i64,
    pub transaction_id: i32,
    /// Local where the station left it out.
    pub reason: Reason,
    pub transaction_data: Listed<MeterValue>,
}
