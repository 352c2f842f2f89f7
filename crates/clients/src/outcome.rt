//! Whether a station did what it was called for.

use ocpp_types::{Mem, NoMemory};
use serde_json::{Category, Value};
use std::alloc::Global;

/// Whether a line `OP ST done N OUTCOME` says so: the outcome is an answer, whose status, if it has one, is Accepted,
/// Scheduled, RebootRequired or Unlocked (OCPP 1.6, sections 7.1 to 7.46).
pub fn is_taken(alloc: Global, text: &str) -> Mem<bool> {
    let Some((_before, json)) = text.split_once(" Answer ") else {
        return Ok(false);
    };
    match Value::from_str(alloc, json) {
        Ok(answer) => Ok(has_good_status(&answer)),
        Err(error) => match error.classify() {
            Category::Memory => Err(NoMemory),
            _ => Ok(false),
        },
    }
}

fn has_good_status(answer: &Value) -> bool {
    match answer.get("status") {
        None => true,
        Some(status) => matches!(
            status.as_str(),
            Some("Accepted" | "Scheduled" | "RebootRequired" | "Unlocked")
        ),
    }
}
