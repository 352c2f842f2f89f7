//! States of a firmware update.

use crate::named::Named;

/// The status of a firmware update (OCPP 1.6, type FirmwareStatus).
#[derive(Clone, Copy, Debug, PartialEq, Eq)]
pub enum FirmwareStatus {
    Downloaded,
    DownloadFailed,
    Downloading,
    Idle,
    InstallationFailed,
    Installing,
    Installed,
}

impl Named for FirmwareStatus {
    ghost use Rattle.ocpp_types.specs.FirmwareStatus.{firmware_status_name, firmware_statuses};

    ghost name_of = { firmware_status_name };

    ghost names = { firmware_statuses };

    fn table() -> &'static [(&'static str, Self)] {
        crate::table! {
            Downloaded, DownloadFailed, Downloading, Idle, InstallationFailed, Installing, Installed
        }
    }

    fn index(&self) -> usize {
        *self as usize
    }
}
