//! Following a journal.
ghost use Rattle.std.specs.Prelude.{◌≡◌, ◌≢◌, ◌++◌, ◌∷◌, ℕ, MatchOption, IfOk, IfSome, List, Option, [], OnOk, OnErr};
ghost use Rattle.std.specs.Io.BufRead.{take_through, DropsThrough};
ghost use Rattle.hub.specs.World.{World, world_run};
ghost use Rattle.standby.specs.Follows.{taken_in, pending_of, IsReached};
ghost use Rattle.standby.specs.Progress.{Followed, AfterLine};
ghost use Rattle.turn_hub.specs.TurnHub.{world, setting, is_clean};

use crate::fault::FollowFault;
use crate::group::take_all;
use crate::waiting::{Passed, Waiting};
use hub_rows::Store;
use journal::{Entry, JournalFile, read_entry};
use ocpp_types::Text;
use station_calls::VendorHandler;
use std::alloc::Global;
use std::io::BufRead;
use turn_hub::TurnHub;

/// Who is told how far a journal is followed.
pub trait Progress {
    /// So many changes were made.
    fn tell(&self, changes: u64);
}

/// Where a journal is followed no further, without a fault.
#[derive(Drop)]
pub enum Ended {
    /// At its end: how many events stand behind the last mark, and whether a line is cut.
    End { waiting: usize, is_cut: bool },
    /// Where another server begins, with that count of changes on record and those operators. No station is connected then.
    Begins { changes: u64, operators: Text },
}

/// Finds where the first server of a journal begins. Events and marks before it are a gap: of the connections and calls at
/// that place nothing is known.
pub fn find_begin<R: BufRead>(
    alloc: Global,
    hosted: &[Text],
    reader: &mut R,
) -> Result<Ended, FollowFault> {
    for _ in 0..u64::MAX {
        let line = read_line(alloc, reader)?;
        let Some(text) = without_feed(line.as_slice()) else {
            return Ok(Ended::End {
                waiting: 0,
                is_cut: !line.is_empty(),
            });
        };
        match read_entry(alloc, hosted, text)? {
            Entry::Bad => {}
            Entry::Begins { changes, operators } => {
                return Ok(Ended::Begins { changes, operators });
            }
            _ => return Err(FollowFault::Gap),
        }
    }
    Err(FollowFault::TooLong)
}

/// Hands the events of a server's journal to a hub, each once the journal says that it was taken, up to where another server
/// begins (docs/RULES.md, The journal). At the end of the journal those of the last turn are taken too, since they may have
/// been told. Nobody is told what they say. The reader stands where the server begins, and the hub has no connection.
///
/// Where it is Ok, the hub is left as by those events that the journal says were taken. After a fault it is left as by the
/// first of them, each whole.
pub fn follow<S: Store + Drop, V: VendorHandler, W: JournalFile + Drop, R: BufRead, P: Progress>(
    alloc: Global,
    hub: &mut TurnHub<S, V, W>,
    reader: &mut R,
    progress: &P,
) -> Result<Ended, FollowFault>
    ensures setting { setting V.view hub.new ≡ setting V.view hub.old }
    ensures world { is_clean S.view hub.new → OnOk result (IfSome (R.remaining reader.old) (λ input.
        world S.view hub.new ≡ world_run (setting V.view hub.old) (world S.view hub.old)
        (taken_in (setting V.view hub.old).is_hosted 0 input))) }
    ensures fault { is_clean S.view hub.new → OnErr result (IfSome (R.remaining reader.old) (λ input.
        IsReached (setting V.view hub.old) (world S.view hub.old)
        (taken_in (setting V.view hub.old).is_hosted 0 input) (world S.view hub.new))) }
{
    let mut waiting = Waiting::new(alloc);
    for _ in 0..u64::MAX {
        let ended = follow_line(alloc, hub, reader, &mut waiting, progress)?;
        if let Some(ended) = ended {
            return Ok(ended);
        }
    }
    Err(FollowFault::TooLong)
}

/// Follows the next line. `None` is that more may come.
fn follow_line<S: Store + Drop, V: VendorHandler, W: JournalFile + Drop, R: BufRead, P: Progress>(
    alloc: Global,
    hub: &mut TurnHub<S, V, W>,
    reader: &mut R,
    waiting: &mut Waiting,
    progress: &P,
) -> Result<Option<Ended>, FollowFault>
    ensures setting { setting V.view hub.new ≡ setting V.view hub.old }
    ensures was_clean { is_clean S.view hub.new → is_clean S.view hub.old }
    ensures after { (w : World) (input : Option (List ℕ))
        → Followed (is_clean S.view hub.old) (setting V.view hub.old) w (world S.view hub.old) (pending_of waiting.old) input (R.remaining reader.old)
        → AfterLine (is_clean S.view hub.new) (setting V.view hub.old) w (world S.view hub.new) (pending_of waiting.new) input (R.remaining reader.new) result }
{
    let line = read_line(alloc, reader)?;
    let Some(text) = without_feed(line.as_slice()) else {
        take_all(hub, waiting.held.as_slice())?;
        return Ok(Some(Ended::End {
            waiting: waiting.events.len(),
            is_cut: !line.is_empty(),
        }));
    };
    let entry = read_entry(alloc, hub.hosted(), text)?;
    let (taken, passed) = waiting.pass(text, entry)?;
    take_all(hub, taken.as_slice())?;
    match passed {
        Passed::Begun { changes, operators } => Ok(Some(Ended::Begins { changes, operators })),
        Passed::On { changes } => compare(hub, progress, changes),
    }
}

/// More may come, where as many changes were made as a line says, if it says so.
fn compare<S: Store + Drop, V: VendorHandler, W: JournalFile + Drop, P: Progress>(
    hub: &TurnHub<S, V, W>,
    progress: &P,
    changes: Option<u64>,
) -> Result<Option<Ended>, FollowFault>
    ensures { IfOk result (λ ended. ended ≡ None) }
{
    let Some(changes) = changes else {
        return Ok(None);
    };
    progress.tell(changes);
    if hub.changes() == changes {
        Ok(None)
    } else {
        Err(FollowFault::Changes)
    }
}

/// The bytes of the next line with its line feed, or those without one at the end.
fn read_line<R: BufRead>(alloc: Global, reader: &mut R) -> Result<Vec<u8>, FollowFault>
    ensures bytes { IfOk result (λ line. IfSome (R.remaining reader.old) (λ input. line.items ≡ take_through 10 input)) }
    ensures rest { OnOk result (DropsThrough (R.remaining reader.old) (R.remaining reader.new) 10) }
{
    let mut line = Vec::new(alloc);
    reader.read_until(b'\n', &mut line)?;
    Ok(line)
}

/// The line that a line feed ends.
fn without_feed(line: &[u8]) -> Option<&[u8]>
    ensures { MatchOption result ((text : List ℕ) → line.now ≢ text ++ (10 ∷ [])) (λ text. line.now ≡ text.now ++ (10 ∷ [])) }
{
    match line {
        [text @ .., b'\n'] => Some(text),
        _ => None,
    }
}
