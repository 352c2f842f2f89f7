//! Edits of id tags.
ghost use Rattle.std.specs.Prelude.{◌≡◌, option_map};
ghost use Rattle.sqlite.specs.Held.{state};
ghost use Rattle.sql_rows.specs.Kept.{Edits, Ran};
ghost use Rattle.sql_rows.specs.TypedTables.{tags};
ghost use Rattle.hub_rows.specs.Changes.{edit, tag_row};
ghost use Rattle.hub_rows.specs.declared.change.Edit.TheVariants.{Tags};
ghost use Rattle.hub_rows.specs.declared.change.TagEdit.TheVariants.{TagPut, TagDropped};
ghost use Rattle.ocpp_types.specs.TagKey.{key_of};

use crate::binds::{added, done, key_if_any, lent, lent_key, seconds_if_any};
use hub_rows::{StoreFault, Tag};
use sqlite::{Alter, Connection, Error, params};
use std::alloc::Global;

/// Runs a statement on the row of a tag, with the key of its parent.
fn run_row<S: Alter>(
    conn: &mut Connection<S>,
    sql: &str,
    op: &str,
    key: &str,
    tag: &Tag,
    parent_key: Option<&str>,
) -> Result<usize, Error>
    requires { option_map (λ k. k.now) parent_key ≡ option_map key_of tag.now.parent }
    ensures ran { Ran sql.now (tags.row (tag_row op.now key.now tag.now)) (state S.Store conn.old) (state S.Store conn.new) result }
{
    conn.execute(
        sql,
        params![
            op,
            key,
            tag.text.as_str(),
            lent(&tag.parent),
            parent_key,
            tag.blocked,
            seconds_if_any(&tag.expiry)
        ],
    )
}

/// Puts the row of a tag, with the key of its parent. Most often none is there.
fn put_row<S: Alter>(
    conn: &mut Connection<S>,
    op: &str,
    key: &str,
    tag: &Tag,
    parent_key: Option<&str>,
) -> Result<(), StoreFault>
    requires { option_map (λ k. k.now) parent_key ≡ option_map key_of tag.now.parent }
    ensures edits { Edits (edit op.now (Tags (TagPut key.now tag.now))) (state S.Store conn.old) (state S.Store conn.new) result }
{
    if added(run_row(conn, sql_tables::tags::ADD, op, key, tag, parent_key))? {
        Ok(())
    } else {
        done(run_row(conn, sql_tables::tags::PUT, op, key, tag, parent_key))
    }
}

/// Drops a tag and its grants.
pub(crate) fn drop_tag<S: Alter>(
    conn: &mut Connection<S>,
    op: &str,
    key: &str,
) -> Result<(), StoreFault>
    ensures edits { Edits (edit op.now (Tags (TagDropped key.now))) (state S.Store conn.old) (state S.Store conn.new) result }
{
    done(conn.execute(sql_tables::tags::DROP, params![op, key]))
}

/// Puts a tag, in place of the one with its key, whose grants it keeps.
pub(crate) fn put_tag<S: Alter>(
    conn: &mut Connection<S>,
    alloc: Global,
    op: &str,
    key: &str,
    tag: &Tag,
) -> Result<(), StoreFault>
    ensures edits { Edits (edit op.now (Tags (TagPut key.now tag.now))) (state S.Store conn.old) (state S.Store conn.new) result }
{
    let parent_key = key_if_any(alloc, &tag.parent)?;
    put_row(conn, op, key, tag, lent_key(&parent_key))
}
