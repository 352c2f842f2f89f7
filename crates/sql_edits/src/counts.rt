//! The count of changes.
ghost use Rattle.std.specs.Prelude.{◌<◌, ◌^◌, ◌∷◌, [], codes, OnOk};
ghost use Rattle.sqlite_value.specs.declared.value.Value.TheVariants.{Int, Text};
ghost use Rattle.sqlite.specs.Held.{state};
ghost use Rattle.sql_rows.specs.Kept.{EditsIn, IsPutIn, Ran, count_meta};
ghost use Rattle.sql_rows.specs.TypedTables.{metas};

use crate::binds::{changed_any, done, number_of};
use hub_rows::StoreFault;
use sqlite::{Alter, Connection, Error, params};

/// Runs a statement on the row that counts changes.
fn run<S: Alter>(conn: &mut Connection<S>, sql: &str, count: i64) -> Result<usize, Error>
    ensures ran { Ran sql.now (Text (codes "changes") ∷ Int count ∷ []) (state S.Store conn.old) (state S.Store conn.new) result }
{
    conn.execute(sql, params!["changes", count])
}

/// Puts how many changes are on record. That is below 2^63, or else this answers Failed.
pub(crate) fn put_count<S: Alter>(conn: &mut Connection<S>, changes: u64) -> Result<(), StoreFault>
    ensures edits { EditsIn (IsPutIn metas (count_meta changes)) (state S.Store conn.old) (state S.Store conn.new) result }
    ensures small { OnOk result (changes < 2 ^ 63) }
{
    match number_of(changes) {
        Some(count) => {
            if changed_any(run(conn, sql_tables::meta::UPDATE, count))? {
                Ok(())
            } else {
                done(run(conn, sql_tables::meta::PUT, count))
            }
        }
        None => Err(StoreFault::Failed),
    }
}
