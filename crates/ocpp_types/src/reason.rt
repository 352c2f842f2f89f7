//! Why transactions end.

use crate::named::Named;

/// Why a transaction ended (OCPP 1.6, type Reason).
#[derive(Clone, Copy, Debug, PartialEq, Eq)]
pub enum Reason {
    DeAuthorized,
    EmergencyStop,
    EVDisconnected,
    HardReset,
    Local,
    Other,
    PowerLoss,
    Reboot,
    Remote,
    SoftReset,
    UnlockCommand,
}

impl Named for Reason {
    ghost use Rattle.ocpp_types.specs.Reason.{reason_name, reasons};

    ghost name_of = { reason_name };

    ghost names = { reasons };

    fn table() -> &'static [(&'static str, Self)] {
        crate::table! {
            DeAuthorized, EmergencyStop, EVDisconnected, HardReset, Local, Other, PowerLoss, Reboot,
            Remote, SoftReset, UnlockCommand
        }
    }

    fn index(&self) -> usize {
        *self as usize
    }
}
