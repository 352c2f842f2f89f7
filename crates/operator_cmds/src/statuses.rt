//! The statuses of answers, by name.

use ocpp_types::Named;

/// Whether a command is carried out (OCPP 1.6, types CancelReservationStatus, ClearCacheStatus,
/// RemoteStartStopStatus and ResetStatus).
#[derive(Clone, Copy, Debug, PartialEq, Eq)]
pub enum AcceptanceStatus {
    Accepted,
    Rejected,
}

impl Named for AcceptanceStatus {
    ghost use Rattle.operator_cmds.specs.Statuses.{acceptance_status_name, acceptance_statuses};

    ghost name_of = { acceptance_status_name };

    ghost names = { acceptance_statuses };

    fn table() -> &'static [(&'static str, Self)] {
        &[("Accepted", Self::Accepted), ("Rejected", Self::Rejected)]
    }

    fn index(&self) -> usize {
        *self as usize
    }
}

/// The answer to ChangeAvailability (OCPP 1.6, type AvailabilityStatus).
#[derive(Clone, Copy, Debug, PartialEq, Eq)]
pub enum AvailabilityStatus {
    Accepted,
    Rejected,
    Scheduled,
}

impl Named for AvailabilityStatus {
    ghost use Rattle.operator_cmds.specs.Statuses.{availability_status_name, availability_statuses};

    ghost name_of = { availability_status_name };

    ghost names = { availability_statuses };

    fn table() -> &'static [(&'static str, Self)] {
        ocpp_types::table! { Accepted, Rejected, Scheduled }
    }

    fn index(&self) -> usize {
        *self as usize
    }
}

/// The answer to ChangeConfiguration (OCPP 1.6, type ConfigurationStatus).
#[derive(Clone, Copy, Debug, PartialEq, Eq)]
pub enum ConfigurationStatus {
    Accepted,
    Rejected,
    RebootRequired,
    NotSupported,
}

impl Named for ConfigurationStatus {
    ghost use Rattle.operator_cmds.specs.Statuses.{configuration_status_name, configuration_statuses};

    ghost name_of = { configuration_status_name };

    ghost names = { configuration_statuses };

    fn table() -> &'static [(&'static str, Self)] {
        ocpp_types::table! { Accepted, Rejected, RebootRequired, NotSupported }
    }

    fn index(&self) -> usize {
        *self as usize
    }
}

/// The answer to ReserveNow (OCPP 1.6, type ReservationStatus).
#[derive(Clone, Copy, Debug, PartialEq, Eq)]
pub enum ReservationStatus {
    Accepted,
    Faulted,
    Occupied,
    Rejected,
    Unavailable,
}

impl Named for ReservationStatus {
    ghost use Rattle.operator_cmds.specs.Statuses.{reservation_status_name, reservation_statuses};

    ghost name_of = { reservation_status_name };

    ghost names = { reservation_statuses };

    fn table() -> &'static [(&'static str, Self)] {
        ocpp_types::table! { Accepted, Faulted, Occupied, Rejected, Unavailable }
    }

    fn index(&self) -> usize {
        *self as usize
    }
}

/// The answer to TriggerMessage (OCPP 1.6, type TriggerMessageStatus).
#[derive(Clone, Copy, Debug, PartialEq, Eq)]
pub enum TriggerMessageStatus {
    Accepted,
    Rejected,
    NotImplemented,
}

impl Named for TriggerMessageStatus {
    ghost use Rattle.operator_cmds.specs.Statuses.{trigger_message_status_name, trigger_message_statuses};

    ghost name_of = { trigger_message_status_name };

    ghost names = { trigger_message_statuses };

    fn table() -> &'static [(&'static str, Self)] {
        ocpp_types::table! { Accepted, Rejected, NotImplemented }
    }

    fn index(&self) -> usize {
        *self as usize
    }
}

/// The answer to UnlockConnector (OCPP 1.6, type UnlockStatus).
#[derive(Clone, Copy, Debug, PartialEq, Eq)]
pub enum UnlockStatus {
    Unlocked,
    UnlockFailed,
    NotSupported,
}

impl Named for UnlockStatus {
    ghost use Rattle.operator_cmds.specs.Statuses.{unlock_status_name, unlock_statuses};

    ghost name_of = { unlock_status_name };

    ghost names = { unlock_statuses };

    fn table() -> &'static [(&'static str, Self)] {
        ocpp_types::table! { Unlocked, UnlockFailed, NotSupported }
    }

    fn index(&self) -> usize {
        *self as usize
    }
}

/// The answer to SendLocalList (OCPP 1.6, type UpdateStatus).
#[derive(Clone, Copy, Debug, PartialEq, Eq)]
pub enum UpdateStatus {
    Accepted,
    Failed,
    NotSupported,
    VersionMismatch,
}

impl Named for UpdateStatus {
    ghost use Rattle.operator_cmds.specs.Statuses.{update_status_name, update_statuses};

    ghost name_of = { update_status_name };

    ghost names = { update_statuses };

    fn table() -> &'static [(&'static str, Self)] {
        ocpp_types::table! { Accepted, Failed, NotSupported, VersionMismatch }
    }

    fn index(&self) -> usize {
        *self as usize
    }
}
