//! What members of commands choose between, by name.

use ocpp_types::Named;

/// The availability that a connector is set to (OCPP 1.6, type AvailabilityType).
#[derive(Clone, Copy, Debug, PartialEq, Eq)]
pub enum AvailabilityType {
    Inoperative,
    Operative,
}

impl Named for AvailabilityType {
    ghost use Rattle.operator_cmds.specs.Choices.{availability_type_name, availability_types};

    ghost name_of = { availability_type_name };

    ghost names = { availability_types };

    fn table() -> &'static [(&'static str, Self)] {
        &[
            ("Inoperative", Self::Inoperative),
            ("Operative", Self::Operative),
        ]
    }

    fn index(&self) -> usize {
        *self as usize
    }
}

/// What a station is asked to send (OCPP 1.6, type MessageTrigger).
#[derive(Clone, Copy, Debug, PartialEq, Eq)]
pub enum MessageTrigger {
    BootNotification,
    DiagnosticsStatusNotification,
    FirmwareStatusNotification,
    Heartbeat,
    MeterValues,
    StatusNotification,
}

impl Named for MessageTrigger {
    ghost use Rattle.operator_cmds.specs.Choices.{message_trigger_name, message_triggers};

    ghost name_of = { message_trigger_name };

    ghost names = { message_triggers };

    fn table() -> &'static [(&'static str, Self)] {
        ocpp_types::table! {
            BootNotification, DiagnosticsStatusNotification, FirmwareStatusNotification, Heartbeat,
            MeterValues, StatusNotification
        }
    }

    fn index(&self) -> usize {
        *self as usize
    }
}

/// How a station restarts (OCPP 1.6, type ResetType).
#[derive(Clone, Copy, Debug, PartialEq, Eq)]
pub enum ResetType {
    Hard,
    Soft,
}

impl Named for ResetType {
    ghost use Rattle.operator_cmds.specs.Choices.{reset_type_name, reset_types};

    ghost name_of = { reset_type_name };

    ghost names = { reset_types };

    fn table() -> &'static [(&'static str, Self)] {
        &[("Hard", Self::Hard), ("Soft", Self::Soft)]
    }

    fn index(&self) -> usize {
        *self as usize
    }
}

/// What a list of tags does to the one that a station has (OCPP 1.6, type UpdateType).
#[derive(Clone, Copy, Debug, PartialEq, Eq)]
pub enum UpdateType {
    Differential,
    Full,
}

impl Named for UpdateType {
    ghost use Rattle.operator_cmds.specs.Choices.{update_type_name, update_types};

    ghost name_of = { update_type_name };

    ghost names = { update_types };

    fn table() -> &'static [(&'static str, Self)] {
        &[("Differential", Self::Differential), ("Full", Self::Full)]
    }

    fn index(&self) -> usize {
        *self as usize
    }
}
