//! Edits of local lists, whose versions and entries have a table each.
ghost use Rattle.std.specs.Prelude.{◌≡◌, ◌&&◌, map, IsTrue};
ghost use Rattle.std.specs.Str.{bytes_eq};
ghost use Rattle.ocpp_types.specs.TagKey.{key_of};
ghost use Rattle.hub_rows.specs.Changes.{edit};
ghost use Rattle.hub_rows.specs.declared.change.Edit.TheVariants.{Holdings};
ghost use Rattle.hub_rows.specs.declared.change.HoldingEdit.TheVariants.{ListSet};
ghost use Rattle.hub_rows.specs.LocalLists.{AreEntries};
ghost use Rattle.sqlite.specs.Held.{state};
ghost use Rattle.sql_rows.specs.Kept.{ArePutIn, EditsIf, EditsIn, IsDropped, IsMade, IsPutIn, InBatch};
ghost use Rattle.sql_rows.specs.TypedTables.{entries, entry_row, lists};

use crate::binds::{done, lent, seconds_if_any};
use hub_rows::{LocalList, LocalTag, StoreFault};
use ocpp_types::{Named, TagKey};
use sqlite::{Alter, Connection, params};
use std::alloc::Global;

/// Drops the entries of a list.
fn drop_entries<S: Alter>(
    conn: &mut Connection<S>,
    op: &str,
    station: &str,
) -> Result<(), StoreFault>
    ensures edits { EditsIn (IsDropped entries (λ e. bytes_eq e.op op.now && bytes_eq e.station station.now)) (state S.Store conn.old) (state S.Store conn.new) result }
{
    done(conn.execute(sql_tables::list_entries::DROP, params![op, station]))
}

/// Puts a list, without its entries.
fn put_head<S: Alter>(
    conn: &mut Connection<S>,
    op: &str,
    station: &str,
    version: u32,
) -> Result<(), StoreFault>
    ensures edits { EditsIn (IsPutIn lists (record { op = op.now; station = station.now; version = version })) (state S.Store conn.old) (state S.Store conn.new) result }
{
    done(conn.execute(sql_tables::lists::PUT, params![op, station, version]))
}

/// Puts the row of an entry.
fn put_entry_row<S: Alter>(
    conn: &mut Connection<S>,
    op: &str,
    station: &str,
    key: &str,
    entry: &LocalTag,
) -> Result<(), StoreFault>
    requires { key.now ≡ key_of entry.now.tag }
    ensures edits { EditsIn (IsPutIn entries (entry_row op.now station.now entry.now)) (state S.Store conn.old) (state S.Store conn.new) result }
{
    done(conn.execute(
        sql_tables::list_entries::ADD,
        params![
            op,
            station,
            key,
            entry.tag.as_str(),
            seconds_if_any(&entry.info.expiry_date),
            lent(&entry.info.parent_id_tag),
            entry.info.status.name()
        ],
    ))
}

/// Puts an entry of a list.
fn put_entry<S: Alter>(
    conn: &mut Connection<S>,
    alloc: Global,
    op: &str,
    station: &str,
    entry: &LocalTag,
) -> Result<(), StoreFault>
    ensures edits { EditsIn (IsPutIn entries (entry_row op.now station.now entry.now)) (state S.Store conn.old) (state S.Store conn.new) result }
{
    let key = TagKey::of(alloc, entry.tag.as_str())?;
    put_entry_row(conn, op, station, key.as_str(), entry)
}

/// Puts the entries of a list.
fn put_entries<S: Alter>(
    conn: &mut Connection<S>,
    alloc: Global,
    op: &str,
    station: &str,
    list: &[LocalTag],
) -> Result<(), StoreFault>
    ensures edits { EditsIn (ArePutIn entries (map (entry_row op.now station.now) list.now)) (state S.Store conn.old) (state S.Store conn.new) result }
{
    'entries: for entry in list {
        put_entry(conn, alloc, op, station, entry)?;
    }
    Ok(())
}

/// Sets the local list of a station, in place of the one before and all its entries.
pub(crate) fn set_list<S: Alter>(
    conn: &mut Connection<S>,
    alloc: Global,
    op: &str,
    station: &str,
    list: &LocalList,
) -> Result<(), StoreFault>
    ensures edits { EditsIf (λ s. IsTrue s.is_open → InBatch s × AreEntries list.now.entries) (IsMade (edit op.now (Holdings (ListSet station.now list.now)))) (state S.Store conn.old) (state S.Store conn.new) result }
{
    drop_entries(conn, op, station)?;
    put_head(conn, op, station, list.version)?;
    put_entries(conn, alloc, op, station, list.entries.as_slice())
}
