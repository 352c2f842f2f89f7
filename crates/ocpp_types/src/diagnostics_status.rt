//! States of an upload of diagnostics.

use crate::named::Named;

/// The status of an upload of diagnostics (OCPP 1.6, type DiagnosticsStatus).
#[derive(Clone, Copy, Debug, PartialEq, Eq)]
pub enum DiagnosticsStatus {
    Idle,
    Uploaded,
    UploadFailed,
    Uploading,
}

impl Named for DiagnosticsStatus {
    ghost use Rattle.ocpp_types.specs.DiagnosticsStatus.{diagnostics_status_name, diagnostics_statuses};

    ghost name_of = { diagnostics_status_name };

    ghost names = { diagnostics_statuses };

    fn table() -> &'static [(&'static str, Self)] {
        crate::table! { Idle, Uploaded, UploadFailed, Uploading }
    }

    fn index(&self) -> usize {
        *self as usize
    }
}
