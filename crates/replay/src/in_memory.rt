//! A replay over records in memory.
ghost use Rattle.std.specs.Prelude.{◌≡◌, ◌≢◌, ◌<◌, ◌≤◌, [], length, false, OnOk, OnErr, IfErr, IfSome, Err};
ghost use Rattle.std.specs.Io.KnownBytes.{Appends};
ghost use Rattle.hub_rows.specs.Rows.{no_rows};
ghost use Rattle.hub.specs.Hub.{setting_of};
ghost use Rattle.hub_rows.specs.Operators.{are_operators};
ghost use Rattle.replay.specs.Run.{AppendsFront, output_of};
ghost use Rattle.replay.specs.declared.fault.ReplayFault.TheVariants.{TooLong, BadOperators, Store as StoreFailed};

use crate::fault::ReplayFault;
use crate::input::replay;
use hub::Hub;
use hub_rows::Flush;
use ocpp_types::Text;
use station_calls::VendorHandler;
use std::alloc::Global;
use std::io::{Read, Write};
use store_mem::MemStore;

/// Replays the lines of a reader from no records and no connections, over a store in memory.
/// Vendors' messages are answered by those handlers.
///
/// Where the operators can't be hosted nothing is read and nothing written.
pub fn replay_in_memory<V: VendorHandler, R: Read, W: Write>(
    alloc: Global,
    operators: Vec<Text>,
    vendors: Vec<V>,
    reader: &mut R,
    writer: &mut W,
) -> Result<(), ReplayFault>
    ensures ok { OnOk result (IfSome (R.remaining reader.old) (λ input.
        Appends (W.contents writer.old) (W.contents writer.new)
        (output_of (setting_of V.view operators.items vendors.items) (record { rows = no_rows; slots = [] }) input))) }
    ensures fault { OnErr result (IfSome (R.remaining reader.old) (λ input.
        AppendsFront (W.contents writer.old) (W.contents writer.new)
        (output_of (setting_of V.view operators.items vendors.items) (record { rows = no_rows; slots = [] }) input))) }
    ensures short { OnOk result (IfSome (R.remaining reader.old) (λ input. length input < 1073741824)) }
    ensures long { IfErr result (λ e. e ≡ TooLong → IfSome (R.remaining reader.old) (λ input. 1073741824 ≤ length input)) }
    ensures bad_operators { are_operators operators.items ≡ false → (result ≡ Err BadOperators) × (writer.new ≡ writer.old) }
    ensures operators { IfErr result (λ e. e ≡ BadOperators → are_operators operators.items ≡ false) }
    ensures store { IfErr result (λ e. e ≢ StoreFailed) }
{
    let mut hub = match Hub::new(alloc, MemStore::new(alloc), operators, vendors) {
        Ok(hub) => hub,
        Err(_) => return Err(ReplayFault::BadOperators),
    };
    replay(alloc, &mut hub, reader, writer, Flush::AtOnce)
}
