//! A session of a script.
ghost use Rattle.std.specs.Prelude.{◌≡◌, ◌≤◌, ◌+◌, false, if◌then◌else◌, Some, IfOk, OnOk, OnErr, option_map, string_bytes};
ghost use Rattle.ocpp_types.specs.Text.{characters};
ghost use Rattle.ocpp_types.specs.TimeText.{time_text};
ghost use Rattle.json_data.specs.View as lent;
ghost use Rattle.serde_json.specs.View.{view};
ghost use Rattle.station_sim.specs.Kept.{IsSession};
ghost use Rattle.station_sim.specs.Session.{start, is_done, is_waiting, is_spent, heartbeat_at, wanted_call, due_call, next_call, moves_on, ends_session, metered, after_call, after_message, moved, after_answer, begun, stopped, after_command, left_at, is_id};
ghost use Rattle.station_sim.specs.Calls.{call_id};
ghost use Rattle.station_sim.specs.Written.{IsWritten};

use crate::calls::{DueCall, call_id, call_of, call_text, heartbeat};
use crate::remote::{start_of, stop_of};
use crate::results::{INTERVAL, after_error, after_result, interval_after};
use crate::script::Script;
use crate::stage::Stage;
use crate::version::{ListVersion, version_of};
use json::Value;
use ocpp_frame::Frame;
use ocpp_payload::Action;
use ocpp_types::{Mem, Moment, Text};
use std::alloc::Global;

/// The most calls that a station makes: one that has made them has ended.
pub const MAX_CALLS: u32 = 4_000_000_000;

/// How far a script has come.
#[derive(Drop)]
pub struct Session {
    pub script: Script,
    pub stage: Stage,
    /// How many sessions of its own it has yet to begin.
    pub left: u32,
    /// The tag of the command that began its session. None in a session of its own.
    pub ordered: Option<Text>,
    /// The id of the call in flight.
    pub in_flight: Option<Text>,
    /// The answer to that call moves the script on. That to a heartbeat doesn't, nor one that comes after a command which
    /// has begun or ended a session.
    pub moves: bool,
    /// How many calls were made.
    pub calls: u32,
    /// The second since 1970 of the last call.
    pub called: u64,
    /// The seconds between heartbeats.
    pub interval: u32,
    /// The version of the local list.
    pub version: ListVersion,
}

impl Session {
    /// The start of a script.
    pub fn start(script: Script) -> Session
        ensures { result ≡ start script }
    {
        let left = script.sessions;
        Session {
            script,
            stage: Stage::Boot,
            left,
            ordered: None,
            in_flight: None,
            moves: false,
            calls: 0,
            called: 0,
            interval: INTERVAL,
            version: ListVersion::Unsigned(0),
        }
    }

    /// Whether the script has ended and no call is in flight.
    pub fn is_done(&self) -> bool
        ensures { result ≡ is_done self.now }
    {
        (self.stage.is_end() || self.is_spent()) && self.in_flight.is_none()
    }

    /// Whether it waits for commands and no call is in flight.
    pub fn is_waiting(&self) -> bool
        ensures { result ≡ is_waiting self.now }
    {
        self.stage.is_idle() && self.in_flight.is_none()
    }

    fn is_spent(&self) -> bool
        ensures { result ≡ is_spent self.now }
    {
        self.calls >= MAX_CALLS
    }

    /// The text of the next call at that moment, which is then in flight. `time` is the text of the moment. Where there is no
    /// memory nothing changes.
    pub fn make_call(&mut self, alloc: Global, at: Moment, time: &str) -> Mem<Option<String>>
        requires session { IsSession self.old }
        requires time { time.now ≡ time_text at }
        ensures text { IfOk result (λ text. IsWritten (next_call self.old at) (option_map string_bytes text)) }
        ensures ok { OnOk result (self.new ≡ after_call self.old at (due_call self.old at)) }
        ensures err { OnErr result (self.new ≡ self.old) }
    {
        let Some(call) = self.due_call(alloc, at, time)? else {
            return Ok(None);
        };
        let number = self.next_number();
        let moves = moves_on(call.action);
        let ends = ends_session(call.action);
        let id = call_id(alloc, number)?;
        let text = call_text(alloc, id.as_str(), call)?;
        self.calls = number;
        self.called = at.seconds();
        self.moves = moves;
        self.in_flight = Some(id);
        self.run_meter(ends);
        Ok(Some(text))
    }

    /// Where a session ends, the next one begins with what the meter shows.
    fn run_meter(&mut self, ends: bool)
        ensures { self.new ≡ record self.old { script = metered ends self.old.script } }
    {
        if ends {
            self.script.meter_start = self.script.meter_after(self.script.energy);
        }
    }

    fn due_call(&self, alloc: Global, at: Moment, time: &str) -> Mem<Option<DueCall>>
        requires { time.now ≡ time_text at }
        ensures { IfOk result (λ call. option_map (λ c. (c.action, view c.payload)) call ≡ due_call self.now at) }
    {
        if self.is_spent() {
            return Ok(None);
        }
        match &self.in_flight {
            Some(_) => Ok(None),
            None => self.wanted_call(alloc, at, time),
        }
    }

    fn wanted_call(&self, alloc: Global, at: Moment, time: &str) -> Mem<Option<DueCall>>
        requires { time.now ≡ time_text at }
        ensures { IfOk result (λ call. option_map (λ c. (c.action, view c.payload)) call ≡ wanted_call self.now at) }
    {
        match call_of(alloc, &self.script, &self.ordered, self.stage, time)? {
            Some(call) => Ok(Some(call)),
            None => self.heartbeat_at(alloc, at),
        }
    }

    /// A heartbeat, where its interval has passed since the last call.
    fn heartbeat_at(&self, alloc: Global, at: Moment) -> Mem<Option<DueCall>>
        ensures { IfOk result (λ call. option_map (λ c. (c.action, view c.payload)) call ≡ heartbeat_at self.now at) }
    {
        let silence = at.seconds().saturating_sub(self.called);
        if !self.stage.is_end() && silence >= u64::from(self.interval) {
            Ok(Some(heartbeat(alloc)?))
        } else {
            Ok(None)
        }
    }

    fn next_number(&self) -> u32
        requires few { IsSession self.now }
        requires more { is_spent self.now ≡ false }
        ensures value { result ≡ self.now.calls + 1 }
        ensures short { characters (call_id result) ≤ 36 }
    {
        self.calls + 1
    }

    /// Takes a message of the central system. Where there is no memory nothing changes.
    pub fn hear(&mut self, alloc: Global, frame: &Frame<'_>) -> Mem<()>
        ensures ok { OnOk result (self.new ≡ after_message frame.now self.old) }
        ensures err { OnErr result (self.new ≡ self.old) }
    {
        match frame {
            Frame::Call {
                action,
                payload,
                ..
            } => self.take_command(alloc, action.as_str(), payload.as_value()),
            Frame::CallResult { id, payload } => {
                let payload = payload.as_value();
                let stage = after_result(&self.script, self.left, self.stage, payload);
                let interval = interval_after(self.stage, payload, self.interval);
                self.take_answer(id.as_str(), stage, interval);
                Ok(())
            }
            Frame::CallError { id, .. } => {
                let stage = after_error(&self.script, self.left, self.stage);
                self.take_answer(id.as_str(), stage, self.interval);
                Ok(())
            }
            Frame::Broken { .. } | Frame::Ignored => Ok(()),
        }
    }

    fn take_answer(&mut self, id: &str, stage: Stage, interval: u32)
        ensures { self.new ≡ after_answer id.now stage interval self.old }
    {
        if self.is_in_flight(id) {
            self.move_on(stage, interval);
            self.in_flight = None;
        }
    }

    fn is_in_flight(&self, id: &str) -> bool
        ensures { result ≡ is_id id.now self.now.in_flight }
    {
        match &self.in_flight {
            Some(own) => own.as_str() == id,
            None => false,
        }
    }

    /// Goes to the stage that the answer leads to, if it moves the script on.
    fn move_on(&mut self, stage: Stage, interval: u32)
        ensures { self.new ≡ (if self.old.moves then moved stage interval self.old else self.old) }
    {
        if self.moves {
            self.stage = stage;
            self.left = left_at(stage, self.left);
            self.interval = interval;
        }
    }

    fn take_command(&mut self, alloc: Global, action: &str, payload: &Value<'_>) -> Mem<()>
        ensures ok { OnOk result (self.new ≡ after_command action.now (lent.view payload.now) self.old) }
        ensures err { OnErr result (self.new ≡ self.old) }
    {
        match action {
            "SendLocalList" => self.version = version_of(payload).unwrap_or(self.version),
            "RemoteStartTransaction" => {
                if let Some(tag) = start_of(self, payload) {
                    let tag = Text::copy_of(alloc, tag)?;
                    self.begin(tag);
                }
            }
            "RemoteStopTransaction" => {
                if let Some(transaction) = stop_of(self, payload) {
                    self.stop(transaction);
                }
            }
            _ => {}
        }
        Ok(())
    }

    /// Begins the session of a remote start with that tag.
    fn begin(&mut self, tag: Text)
        ensures { self.new ≡ begun (Some tag) self.old }
    {
        self.stage = Stage::Start;
        self.ordered = Some(tag);
        self.moves = false;
    }

    /// The stop of that transaction is next.
    fn stop(&mut self, transaction: i32)
        ensures { self.new ≡ stopped (Some transaction) self.old }
    {
        self.stage = Stage::Stopping { transaction };
        self.moves = false;
    }
}

/// Whether the answer to a call moves the script on.
fn moves_on(action: Action) -> bool
    ensures { result ≡ moves_on action }
{
    !matches!(action, Action::Heartbeat)
}

/// Whether a call ends a session.
fn ends_session(action: Action) -> bool
    ensures { result ≡ ends_session action }
{
    matches!(action, Action::StopTransaction)
}

/// How many sessions are left as a stage begins: with Authorize one of them does.
fn left_at(stage: Stage, left: u32) -> u32
    ensures { result ≡ left_at stage left }
{
    match stage {
        Stage::Authorize => left.saturating_sub(1),
        _ => left,
    }
}
