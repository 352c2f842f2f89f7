//! The scripted station.
ghost use Rattle.std.specs.Prelude.{◌≡◌, ◌≤◌, None, Some, IfOk, IfErr, OnOk, OnErr, option_map, string_bytes};
ghost use Rattle.std.proofs.Props.{props};
ghost use Rattle.ocpp_frame.specs.Frame.{frame};
ghost use Rattle.ocpp_types.specs.Time.{last_read_moment};
ghost use Rattle.station_sim.specs.Bounds.{bad_field};
ghost use Rattle.station_sim.specs.Replies.{reply_to};
ghost use Rattle.station_sim.specs.Kept.{IsSession};
ghost use Rattle.station_sim.specs.Session.{IsRead, start, due_call, next_call, after_call, after_message, is_done, is_waiting};
ghost use Rattle.station_sim.specs.Written.{IsWritten};

use crate::replies::reply_to;
use crate::script::{BadScript, Script, bad_field};
use crate::session::Session;
use ocpp_frame::FrameReader;
use ocpp_types::{Mem, Moment, print_time};
use std::alloc::Global;

/// A scripted station: it makes the calls of its script, each once the one before was answered, and
/// answers the calls of the central system. One that stays runs the sessions that the central system
/// begins, and sends heartbeats while it has no other call.
#[derive(Drop)]
pub struct Sim {
    pub(crate) alloc: Global,
    session: Session,
    ghost good: { IsSession session },
}

impl Sim {
    ghost use Rattle.station_sim.specs.Sim.{session_of};

    /// A station that has not called yet. The error names the first field that is out of its bounds,
    /// in the order of `BadScript`.
    pub fn new(alloc: Global, script: Script) -> Result<Sim, BadScript>
        ensures ok { IfOk result (λ sim. session_of sim ≡ start script) }
        ensures good { IfOk result (λ _. bad_field script ≡ None) }
        ensures bad { IfErr result (λ field. bad_field script ≡ Some field) }
    {
        match bad_field(&script) {
            Some(field) => Err(field),
            None => Ok(Sim {
                alloc,
                session: Session::start(script),
            }),
        }
    }

    /// The text of the next call at that moment. That call is in flight afterwards. The ids of the
    /// calls are `s1`, `s2` and so on. `None` while a call is in flight, since a station makes one
    /// call at a time, while nothing is to be called, and once the script has ended (OCPP-J 1.6,
    /// sections 4.1.1 and 4.2.1). The
    /// central system reads the payload without fault, unless `at` is past the last moment that
    /// `parse_time` reads. Where there is no memory nothing changes.
    pub fn step(&mut self, at: Moment) -> Mem<Option<String>>
        ensures text { IfOk result (λ text.
            IsWritten (next_call (session_of self.old) at) (option_map string_bytes text)) }
        ensures read { IfOk result (λ _. at ≤ last_read_moment
            → IsRead (due_call (session_of self.old) at)) }
        ensures ok { OnOk result (session_of self.new
            ≡ after_call (session_of self.old) at (due_call (session_of self.old) at)) }
        ensures err { OnErr result (session_of self.new ≡ session_of self.old) }
    {
        let time = print_time(self.alloc, at)?;
        self.session.make_call(self.alloc, at, time.as_str())
    }

    /// Takes a text of the central system, and gives the text of the reply if it gets one: a call gets
    /// one always, also once the script has ended, and any other text none. Only an answer with the id
    /// of the call in flight moves the script on, and a remote start or stop that is accepted (OCPP-J
    /// 1.6, sections 4.2.1 to 4.2.3). Where there is no memory nothing changes.
    pub fn on_text(&mut self, text: &str) -> Mem<Option<String>>
        ensures reply { IfOk result (λ reply. IsWritten
            (reply_to (session_of self.old) (frame text.now)) (option_map string_bytes reply)) }
        ensures ok { OnOk result (session_of self.new ≡ after_message (frame text.now) (session_of self.old)) }
        ensures err { OnErr result (session_of self.new ≡ session_of self.old) }
    {
        let mut reader = FrameReader::new(self.alloc);
        let frame = reader.read(text)?;
        let reply = reply_to(self.alloc, &self.session, &frame)?;
        self.session.hear(self.alloc, &frame)?;
        Ok(reply)
    }

    /// Whether the script has ended and no call is in flight.
    pub fn done(&self) -> bool
        ensures { result ≡ is_done (session_of self.now) }
    {
        self.session.is_done()
    }

    /// Whether it waits for commands: no session runs, and no call is in flight.
    pub fn waits(&self) -> bool
        ensures { result ≡ is_waiting (session_of self.now) }
    {
        self.session.is_waiting()
    }
}
