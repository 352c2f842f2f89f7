//! Edits of readers.
ghost use Rattle.sqlite.specs.Held.{state};
ghost use Rattle.sql_rows.specs.Kept.{Edits};
ghost use Rattle.hub_rows.specs.Changes.{edit};
ghost use Rattle.hub_rows.specs.declared.change.Edit.TheVariants.{Stations};
ghost use Rattle.hub_rows.specs.declared.change.StationEdit.TheVariants.{ReaderSet};

use crate::binds::done;
use hub_rows::{Reader, StoreFault};
use ocpp_types::Named;
use sqlite::{Alter, Connection, params};

/// Puts how the requests of a station are read, in place of what was chosen before.
pub(crate) fn put_reader<S: Alter>(
    conn: &mut Connection<S>,
    op: &str,
    station: &str,
    reader: Reader,
) -> Result<(), StoreFault>
    ensures edits { Edits (edit op.now (Stations (ReaderSet station.now reader))) (state S.Store conn.old) (state S.Store conn.new) result }
{
    done(conn.execute(
        sql_tables::readers::PUT,
        params![op, station, reader.name()],
    ))
}
