//! The commands of an operator to a station: read from JSON, checked against their bounds, written
//! as requests of OCPP 1.6, and the answers to them.
#![tactic(auto)]

mod answer_reader;
mod answers;
mod choices;
mod command;
mod command_reader;
mod configuration;
mod kinds;
mod known_members;
mod local_list;
mod operator_action;
mod remote;
mod reservations;
mod station;
mod statuses;

pub use answer_reader::read_answer;
pub use choices::{AvailabilityType, MessageTrigger, ResetType, UpdateType};
pub use command::{Command, action_name_of, copy_command};
pub use command_reader::{bad_field, read_command, write_request};
pub use configuration::{ChangeConfiguration, GetConfiguration};
pub use known_members::KnownMembers;
pub use local_list::{AuthorizationData, SendLocalList};
pub use remote::{RemoteStartTransaction, RemoteStopTransaction};
pub use reservations::{CancelReservation, ReserveNow};
pub use station::{ChangeAvailability, DataTransfer, Reset, TriggerMessage, UnlockConnector};
