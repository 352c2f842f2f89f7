//! Answers as texts.
ghost use Rattle.std.specs.Prelude.{◌≡◌, ◌++◌, codes, option_map, IfOk, string_bytes};
ghost use Rattle.serde_json.specs.Data.{string};
ghost use Rattle.serde_json.specs.Written.{compact_text};
ghost use Rattle.ocpp_frame.specs.Written.{result_data};
ghost use Rattle.answer_texts.specs.Pieces.{before_next};
ghost use Rattle.ocpp_payload.specs.Conf.{time_data, conf_data, id_tag_info_data, authorize_conf, boot_notification_conf, data_transfer_conf, heartbeat_conf, start_transaction_conf, stop_transaction_conf};

use crate::pieces::{Draft, with_number, with_quoted, with_text, with_time};
use ocpp_payload::Conf;
use ocpp_types::{DataTransferStatus, IdTagInfo, Mem, Moment, Named, Policy, Text};
use std::alloc::Global;

/// The text of a call's result with that answer (OCPP-J 1.6, section 4.2.2; docs/TABLES.md, Answers).
pub fn answer_text(alloc: Global, id: &str, conf: &Conf) -> Mem<String>
    ensures { IfOk result (λ s. string_bytes s ≡ compact_text (result_data id.now (conf_data conf.now))) }
{
    let text = with_text(Draft::new(alloc)?, "[3,")?;
    let text = with_quoted(text, id)?;
    let text = with_text(text, ",")?;
    let text = with_conf(text, alloc, conf)?;
    let text = with_text(text, "]")?;
    Ok(text.into_string())
}

/// With an answer.
fn with_conf(text: Draft, alloc: Global, conf: &Conf) -> Mem<Draft>
    ensures { IfOk result (λ t. t.bytes.items ≡ text.bytes.items ++ compact_text (conf_data conf.now)) }
{
    match conf {
        Conf::Authorize { id_tag_info } => with_authorize(text, alloc, id_tag_info),
        Conf::BootNotification {
            current_time,
            interval,
            status,
        } => with_boot(text, alloc, *current_time, *interval, *status),
        Conf::DataTransfer { status, content } => with_data_transfer(text, *status, content),
        Conf::Heartbeat { current_time } => with_heartbeat(text, alloc, *current_time),
        Conf::StartTransaction {
            id_tag_info,
            transaction_id,
        } => with_start(text, alloc, id_tag_info, *transaction_id),
        Conf::StopTransaction { id_tag_info } => with_stop(text, alloc, id_tag_info),
        Conf::Empty => with_text(text, "{}"),
    }
}

fn with_id_tag_info(text: Draft, alloc: Global, info: &IdTagInfo) -> Mem<Draft>
    ensures { IfOk result (λ t. t.bytes.items ≡ text.bytes.items ++ compact_text (id_tag_info_data info.now)) }
{
    let text = with_text(text, "{")?;
    let text = with_expiry(text, alloc, info.expiry_date)?;
    let text = with_parent(text, &info.parent_id_tag)?;
    let text = with_text(text, "\"status\":")?;
    let text = with_quoted(text, info.status.name())?;
    with_text(text, "}")
}

/// With the member `expiryDate` and its comma, unless there is none.
#[tactic(auto, unfolding(json::specs::Print::escape_byte))]
fn with_expiry(text: Draft, alloc: Global, expiry: Option<Moment>) -> Mem<Draft>
    ensures { IfOk result (λ t. t.bytes.items ≡ text.bytes.items ++ before_next (codes "expiryDate") (option_map time_data expiry)) }
{
    match expiry {
        Some(expiry) => {
            let text = with_text(text, "\"expiryDate\":")?;
            let text = with_time(text, alloc, expiry)?;
            with_text(text, ",")
        }
        None => Ok(text),
    }
}

/// With the member `parentIdTag` and its comma, unless there is none.
fn with_parent(text: Draft, parent: &Option<Text>) -> Mem<Draft>
    ensures { IfOk result (λ t. t.bytes.items ≡ text.bytes.items ++ before_next (codes "parentIdTag") (option_map string parent.now)) }
{
    match parent {
        Some(parent) => {
            let text = with_text(text, "\"parentIdTag\":")?;
            let text = with_quoted(text, parent.as_str())?;
            with_text(text, ",")
        }
        None => Ok(text),
    }
}

fn with_authorize(text: Draft, alloc: Global, info: &IdTagInfo) -> Mem<Draft>
    ensures { IfOk result (λ t. t.bytes.items ≡ text.bytes.items ++ compact_text (authorize_conf info.now)) }
{
    let text = with_text(text, "{\"idTagInfo\":")?;
    let text = with_id_tag_info(text, alloc, info)?;
    with_text(text, "}")
}

fn with_boot(
    text: Draft,
    alloc: Global,
    current_time: Moment,
    interval: u32,
    status: Policy,
) -> Mem<Draft>
    ensures { IfOk result (λ t. t.bytes.items ≡ text.bytes.items ++ compact_text (boot_notification_conf current_time interval status)) }
{
    let text = with_text(text, "{\"currentTime\":")?;
    let text = with_time(text, alloc, current_time)?;
    let text = with_text(text, ",\"interval\":")?;
    let text = with_number(text, interval)?;
    let text = with_text(text, ",\"status\":")?;
    let text = with_quoted(text, status.name())?;
    with_text(text, "}")
}

fn with_data_transfer(text: Draft, status: DataTransferStatus, content: &Option<Text>) -> Mem<Draft>
    ensures { IfOk result (λ t. t.bytes.items ≡ text.bytes.items ++ compact_text (data_transfer_conf status content.now)) }
{
    let text = with_text(text, "{")?;
    let text = with_content(text, content)?;
    let text = with_text(text, "\"status\":")?;
    let text = with_quoted(text, status.name())?;
    with_text(text, "}")
}

/// With the member `data` and its comma, unless there is none.
#[tactic(auto, unfolding(json::specs::Print::escape_byte))]
fn with_content(text: Draft, content: &Option<Text>) -> Mem<Draft>
    ensures { IfOk result (λ t. t.bytes.items ≡ text.bytes.items ++ before_next (codes "data") (option_map string content.now)) }
{
    match content {
        Some(content) => {
            let text = with_text(text, "\"data\":")?;
            let text = with_quoted(text, content.as_str())?;
            with_text(text, ",")
        }
        None => Ok(text),
    }
}

fn with_heartbeat(text: Draft, alloc: Global, current_time: Moment) -> Mem<Draft>
    ensures { IfOk result (λ t. t.bytes.items ≡ text.bytes.items ++ compact_text (heartbeat_conf current_time)) }
{
    let text = with_text(text, "{\"currentTime\":")?;
    let text = with_time(text, alloc, current_time)?;
    with_text(text, "}")
}

fn with_start(text: Draft, alloc: Global, info: &IdTagInfo, transaction: u32) -> Mem<Draft>
    ensures { IfOk result (λ t. t.bytes.items ≡ text.bytes.items ++ compact_text (start_transaction_conf info.now transaction)) }
{
    let text = with_text(text, "{\"idTagInfo\":")?;
    let text = with_id_tag_info(text, alloc, info)?;
    let text = with_text(text, ",\"transactionId\":")?;
    let text = with_number(text, transaction)?;
    with_text(text, "}")
}

fn with_stop(text: Draft, alloc: Global, info: &Option<IdTagInfo>) -> Mem<Draft>
    ensures { IfOk result (λ t. t.bytes.items ≡ text.bytes.items ++ compact_text (stop_transaction_conf info.now)) }
{
    match info {
        Some(info) => with_authorize(text, alloc, info),
        None => with_text(text, "{}"),
    }
}
