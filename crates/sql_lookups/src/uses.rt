//! Look-ups of settled uses.
ghost use Rattle.std.specs.Prelude.{◌≡◌, ◌&&◌, true};
ghost use Rattle.std.specs.Str.{bytes_eq};
ghost use Rattle.sqlite.specs.Held.{state};
ghost use Rattle.hub_rows.specs.Uses.{uses_in};
ghost use Rattle.sql_rows.specs.Kept.{IsServing, Shows};
ghost use Rattle.sql_rows.specs.Kept.{Asks};
ghost use Rattle.sql_rows.specs.TypedTables.{uses};

use hub_rows::{StoreFault, UseRow};
use ocpp_types::Listed;
use sql_rows::listed;
use sqlite::{Alter, Connection, Error, Row, params};

fn list<S: Alter>(conn: &mut Connection<S>, op: &str) -> Result<Vec<Row>, Error>
    ensures shows { IsServing (state S.Store conn.old) → Shows (λ v. v.items) uses (λ r. bytes_eq r.op op.now && true) (state S.Store conn.old) (state S.Store conn.new) result }
{
    conn.query_all(sql_tables::uses::LIST, params![op])
}

/// The uses of an owner.
pub fn uses<S: Alter>(conn: &mut Connection<S>, op: &str) -> Result<Listed<UseRow>, StoreFault>
    ensures asks { Asks (state S.Store conn.old) (state S.Store conn.new) result (λ rows list. list ≡ uses_in op.now rows.uses) }
{
    listed(list(conn, op))
}
