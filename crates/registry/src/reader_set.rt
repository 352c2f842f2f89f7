//! How the requests of stations are read (docs/RULES.md, Tolerant readers).
ghost use Rattle.std.specs.Prelude.{◌≡◌, Err, IfOk};
ghost use Rattle.hub_rows.specs.Reads.{OnlyReads};
ghost use Rattle.hub_rows.specs.Lookups.{lookups_at};
ghost use Rattle.registry.specs.ReaderSet.{reader_rule};

use hub_rows::{Edit, Reader, StationEdit, Store, StoreFault};
use ocpp_types::{Refusal, Text};
use std::alloc::Global;

/// The edit that sets how a station's requests are read, or NoSuchStation.
pub fn plan_reader<S: Store>(
    alloc: Global,
    store: &mut S,
    op: &str,
    station: &str,
    reader: Reader,
) -> Result<Result<Edit, Refusal>, StoreFault>
    ensures reads { OnlyReads S.view store.old store.new result }
    ensures plan { (S.view store.new).clean → IfOk result (λ p. p
        ≡ reader_rule station.now reader (lookups_at op.now (S.view store.old).rows)) }
{
    if store.station(op, station)?.is_none() {
        return Ok(Err(Refusal::NoSuchStation));
    }
    Ok(Ok(Edit::Stations(StationEdit::ReaderSet {
        station: Text::copy_of(alloc, station)?,
        reader,
    })))
}
