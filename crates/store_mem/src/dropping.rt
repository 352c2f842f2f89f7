//! What goes with a station.
ghost use Rattle.std.specs.Prelude.{◌≡◌};
ghost use Rattle.std.specs.Str.{bytes_eq};
ghost use Rattle.hub_rows.specs.Changes.{edit};
ghost use Rattle.hub_rows.specs.Keyed.{without};
ghost use Rattle.hub_rows.specs.declared.change.Edit.TheVariants.{Stations};
ghost use Rattle.hub_rows.specs.declared.change.StationEdit.TheVariants.{StationDropped};
ghost use Rattle.store_mem.specs.Lists.{rows_in};

use crate::lists::Lists;
use hub_rows::NamedRow;

impl Lists {
    /// Drops a station with what it reported, what it holds and its reader, which can't fail.
    pub fn drop_station(&mut self, op: &str, station: &str)
        ensures { rows_in self.new ≡ edit op.now (Stations (StationDropped station.now)) (rows_in self.old) }
    {
        drop_rows(&mut self.stations, op, station);
        drop_rows(&mut self.connectors, op, station);
        drop_rows(&mut self.reservations, op, station);
        drop_rows(&mut self.local_lists, op, station);
        drop_rows(&mut self.reports, op, station);
        drop_rows(&mut self.readers, op, station);
    }
}

/// Drops the rows of a station.
fn drop_rows<R: NamedRow>(rows: &mut Vec<R>, op: &str, station: &str)
    ensures { rows.new.items ≡ without R.op op.now (λ r. bytes_eq (R.name r) station.now) rows.old.items }
{
    rows.retain(|row| !(row.op() == op && row.name() == station));
}
