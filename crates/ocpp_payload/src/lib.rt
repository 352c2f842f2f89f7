//! Requests and answers of OCPP 1.6, read from JSON and written to it.
#![tactic(auto)]

mod action;
mod boot_writer;
mod class_of_action;
mod conf;
mod fault;
mod fields;
mod kind;
mod lists;
mod readings;
mod request;
mod request_reader;
mod tag_info;
mod written;
mod written_kinds;

pub use action::Action;
pub use boot_writer::write_boot;
pub use class_of_action::{ActionClass, action_class};
pub use conf::Conf;
pub use fault::{FieldFault, ReadError, ReadResult};
pub use fields::{optional, required, with_default};
pub use kind::{
    AnyText, Boolean, ConnectorFrom, Int32, Int64, Kind, NameOf, TextOf, Time, WholeSecond,
};
pub use lists::{ListOf, ObjectOf, Readable, SomeOf};
pub use readings::MeterValue;
pub use request::{
    Authorize, DataTransfer, DiagnosticsStatusNotification, FirmwareStatusNotification,
    MeterValues, Request, StartTransaction, StatusNotification, StopTransaction,
};
pub use request_reader::read_request;
pub use written::{Bounded, Checked, ObjectWriter, Tabled, Written, bad_may};
pub use written_kinds::{IntegerWithin, TextWithin};
