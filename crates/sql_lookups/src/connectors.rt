//! Look-ups of connectors.
ghost use Rattle.std.specs.Prelude.{◌≡◌, ◌&&◌};
ghost use Rattle.std.specs.Str.{bytes_eq};
ghost use Rattle.sqlite.specs.Held.{state};
ghost use Rattle.hub_rows.specs.Lookups.{connectors_in};
ghost use Rattle.sql_rows.specs.Kept.{IsServing, Shows};
ghost use Rattle.sql_rows.specs.Kept.{Asks};
ghost use Rattle.sql_rows.specs.TypedTables.{connectors};

use hub_rows::{ConnectorRow, StoreFault};
use ocpp_types::Listed;
use sql_rows::listed;
use sqlite::{Alter, Connection, Error, Row, params};

fn list<S: Alter>(conn: &mut Connection<S>, op: &str, station: &str) -> Result<Vec<Row>, Error>
    ensures shows { IsServing (state S.Store conn.old) → Shows (λ v. v.items) connectors (λ r. bytes_eq r.op op.now && bytes_eq r.station station.now) (state S.Store conn.old) (state S.Store conn.new) result }
{
    conn.query_all(sql_tables::connectors::LIST, params![op, station])
}

/// The connectors of a station.
pub fn connectors<S: Alter>(
    conn: &mut Connection<S>,
    op: &str,
    station: &str,
) -> Result<Listed<ConnectorRow>, StoreFault>
    ensures asks { Asks (state S.Store conn.old) (state S.Store conn.new) result (λ rows list. list ≡ connectors_in op.now station.now rows.connectors) }
{
    listed(list(conn, op, station))
}
