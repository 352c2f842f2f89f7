//! Frames to text, compactly and with the members of objects in byte order.
ghost use Rattle.std.specs.Prelude.{◌≡◌, ◌≤◌, IfOk, false, string_bytes};
ghost use Rattle.serde_json.specs.View.{view};
ghost use Rattle.serde_json.specs.Written.{has_float, compact_text};
ghost use Rattle.ocpp_frame.specs.Frame.{frame};
ghost use Rattle.ocpp_types.specs.Text.{characters};
ghost use Rattle.ocpp_frame.specs.Written.{call_data, result_data, error_data, IsCompact, IsPayload};

use crate::frame::Frame;
use ocpp_types::Mem;
use serde_json::{Value, json};
use std::alloc::{AllocError, Global};

/// The text of a call (OCPP-J 1.6, section 4.2.1).
#[tactic(auto, using(crate::proofs::ReadAgain::read_again))]
pub fn write_call(alloc: Global, id: &str, action: &str, payload: Value) -> Mem<String>
    ensures text { IfOk result (λ s. has_float (view payload) ≡ false
        → string_bytes s ≡ compact_text (call_data id.now action.now (view payload))) }
    ensures compact { IfOk result (λ s. IsCompact (string_bytes s) (call_data id.now action.now (view payload))) }
    ensures reads_back { IfOk result (λ s. characters id.now ≤ 36 → IsPayload (view payload)
        → frame (string_bytes s) ≡ Frame.Call id.now action.now (view payload)) }
{
    let call = call_value(alloc, id, action, payload)?;
    Ok(call.to_string(alloc)?)
}

/// The text of a call's result (OCPP-J 1.6, section 4.2.2).
#[tactic(auto, using(crate::proofs::ReadAgain::read_again))]
pub fn write_result(alloc: Global, id: &str, payload: Value) -> Mem<String>
    ensures text { IfOk result (λ s. has_float (view payload) ≡ false
        → string_bytes s ≡ compact_text (result_data id.now (view payload))) }
    ensures compact { IfOk result (λ s. IsCompact (string_bytes s) (result_data id.now (view payload))) }
    ensures reads_back { IfOk result (λ s. IsPayload (view payload)
        → frame (string_bytes s) ≡ Frame.CallResult id.now (view payload)) }
{
    let answer = result_value(alloc, id, payload)?;
    Ok(answer.to_string(alloc)?)
}

/// The text of a call's error, with no details (OCPP-J 1.6, section 4.2.3).
pub fn write_error(alloc: Global, id: &str, code: &str, description: &str) -> Mem<String>
    ensures text { IfOk result (λ s. string_bytes s
        ≡ compact_text (error_data id.now code.now description.now)) }
    ensures reads_back { IfOk result (λ s. frame (string_bytes s)
        ≡ Frame.CallError id.now code.now description.now) }
{
    let error = error_value(alloc, id, code, description)?;
    Ok(error.to_string(alloc)?)
}

fn call_value(alloc: Global, id: &str, action: &str, payload: Value) -> Result<Value, AllocError>
    ensures { IfOk result (λ v. view v ≡ call_data id.now action.now (view payload)) }
{
    json!(in alloc; [2u64, id, action, payload])
}

fn result_value(alloc: Global, id: &str, payload: Value) -> Result<Value, AllocError>
    ensures { IfOk result (λ v. view v ≡ result_data id.now (view payload)) }
{
    json!(in alloc; [3u64, id, payload])
}

fn error_value(alloc: Global, id: &str, code: &str, description: &str) -> Result<Value, AllocError>
    ensures { IfOk result (λ v. view v ≡ error_data id.now code.now description.now) }
{
    json!(in alloc; [4u64, id, code, description, {}])
}
