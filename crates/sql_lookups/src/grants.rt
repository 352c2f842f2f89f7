//! Look-ups of grants.
ghost use Rattle.std.specs.Prelude.{◌≡◌, ◌&&◌, true};
ghost use Rattle.std.specs.Str.{bytes_eq};
ghost use Rattle.sqlite.specs.Held.{state};
ghost use Rattle.hub_rows.specs.Grants.{grants_in, grants_of_key, has_grant_in, is_grant};
ghost use Rattle.hub_rows.specs.Keyed.{found};
ghost use Rattle.sql_rows.specs.Kept.{IsServing, Shows};
ghost use Rattle.sql_rows.specs.Kept.{Asks};
ghost use Rattle.sql_rows.specs.TypedTables.{grants};

use crate::bounds::ABOVE_ALL;
use hub_rows::{GrantRow, StoreFault};
use ocpp_types::Listed;
use sql_rows::{first_row, is_found, listed};
use sqlite::{Alter, Connection, Error, Row, params};

fn find<S: Alter>(
    conn: &mut Connection<S>,
    op: &str,
    key: &str,
    to: &str,
) -> Result<Vec<Row>, Error>
    ensures shows { IsServing (state S.Store conn.old) → Shows (λ v. v.items) grants (λ r. bytes_eq r.op op.now && is_grant key.now to.now r) (state S.Store conn.old) (state S.Store conn.new) result }
{
    conn.query_all(sql_tables::grants::FIND, params![op, key, to])
}

fn list<S: Alter>(conn: &mut Connection<S>, op: &str) -> Result<Vec<Row>, Error>
    ensures shows { IsServing (state S.Store conn.old) → Shows (λ v. v.items) grants (λ r. bytes_eq r.op op.now && true) (state S.Store conn.old) (state S.Store conn.new) result }
{
    conn.query_all(sql_tables::grants::LIST, params![op])
}

fn find_received<S: Alter>(conn: &mut Connection<S>, to: &str, key: &str) -> Result<Vec<Row>, Error>
    ensures shows { IsServing (state S.Store conn.old) → Shows (λ v. v.items) grants (λ r. bytes_eq r.to to.now && bytes_eq r.key key.now) (state S.Store conn.old) (state S.Store conn.new) result }
{
    conn.query_all(sql_tables::grants::FIND_RECEIVED, params![to, key, key])
}

pub fn list_received<S: Alter>(conn: &mut Connection<S>, to: &str) -> Result<Vec<Row>, Error>
    ensures shows { IsServing (state S.Store conn.old) → Shows (λ v. v.items) grants (λ r. bytes_eq r.to to.now) (state S.Store conn.old) (state S.Store conn.new) result }
{
    conn.query_all(
        sql_tables::grants::FIND_RECEIVED,
        params![to, "", ABOVE_ALL],
    )
}

/// The grant of a tag to an operator.
fn find_grant<S: Alter>(
    conn: &mut Connection<S>,
    op: &str,
    key: &str,
    to: &str,
) -> Result<Option<GrantRow>, StoreFault>
    ensures asks { Asks (state S.Store conn.old) (state S.Store conn.new) result (λ rows r. r ≡ found (λ g. g.op) op.now (is_grant key.now to.now) rows.grants) }
{
    first_row(find(conn, op, key, to))
}

/// Whether an operator granted its tag of a key to another.
pub fn has_grant<S: Alter>(
    conn: &mut Connection<S>,
    op: &str,
    key: &str,
    to: &str,
) -> Result<bool, StoreFault>
    ensures asks { Asks (state S.Store conn.old) (state S.Store conn.new) result (λ rows has. has ≡ has_grant_in op.now key.now to.now rows.grants) }
{
    is_found(find_grant(conn, op, key, to))
}

/// What an operator granted.
pub fn grants_out<S: Alter>(
    conn: &mut Connection<S>,
    op: &str,
) -> Result<Listed<GrantRow>, StoreFault>
    ensures asks { Asks (state S.Store conn.old) (state S.Store conn.new) result (λ rows list. list ≡ grants_in op.now rows.grants) }
{
    listed(list(conn, op))
}

/// The grants of the tags of a key to an operator, in the order of the owners.
pub fn received_of_key<S: Alter>(
    conn: &mut Connection<S>,
    to: &str,
    key: &str,
) -> Result<Listed<GrantRow>, StoreFault>
    ensures asks { Asks (state S.Store conn.old) (state S.Store conn.new) result (λ rows list. list ≡ grants_of_key to.now key.now rows.grants) }
{
    listed(find_received(conn, to, key))
}
