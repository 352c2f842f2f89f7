//! Look-ups of id tags.
ghost use Rattle.std.specs.Prelude.{◌≡◌, ◌&&◌, true};
ghost use Rattle.std.specs.Str.{bytes_eq};
ghost use Rattle.sqlite.specs.Held.{state};
ghost use Rattle.hub_rows.specs.Lookups.{tags_in};
ghost use Rattle.hub_rows.specs.Tags.{tag_in, own_tag_in, is_blocked, is_parent_blocked};
ghost use Rattle.sql_rows.specs.Kept.{IsServing, Shows};
ghost use Rattle.sql_rows.specs.Kept.{Asks};
ghost use Rattle.sql_rows.specs.TypedTables.{tags};

use crate::bounds::ABOVE_ALL;
use hub_rows::{Info, StoreFault, TagRow};
use ocpp_types::{Listed, TagKey, Text};
use sql_rows::{first_row, listed};
use sqlite::{Alter, Connection, Error, Row, params};
use std::alloc::Global;

fn find_one<S: Alter>(conn: &mut Connection<S>, op: &str, key: &str) -> Result<Vec<Row>, Error>
    ensures shows { IsServing (state S.Store conn.old) → Shows (λ v. v.items) tags (λ r. bytes_eq r.op op.now && bytes_eq r.key key.now) (state S.Store conn.old) (state S.Store conn.new) result }
{
    conn.query_all(sql_tables::tags::FIND, params![op, key, key])
}

fn find_all<S: Alter>(conn: &mut Connection<S>, op: &str) -> Result<Vec<Row>, Error>
    ensures shows { IsServing (state S.Store conn.old) → Shows (λ v. v.items) tags (λ r. bytes_eq r.op op.now && true) (state S.Store conn.old) (state S.Store conn.new) result }
{
    conn.query_all(sql_tables::tags::FIND, params![op, "", ABOVE_ALL])
}

/// The tag of a key.
fn find_tag<S: Alter>(
    conn: &mut Connection<S>,
    op: &str,
    key: &str,
) -> Result<Option<TagRow>, StoreFault>
    ensures asks { Asks (state S.Store conn.old) (state S.Store conn.new) result (λ rows tag. tag ≡ tag_in op.now key.now rows.tags) }
{
    first_row(find_one(conn, op, key))
}

/// All tags of an operator.
pub fn tags<S: Alter>(conn: &mut Connection<S>, op: &str) -> Result<Listed<TagRow>, StoreFault>
    ensures asks { Asks (state S.Store conn.old) (state S.Store conn.new) result (λ rows list. list ≡ tags_in op.now rows.tags) }
{
    listed(find_all(conn, op))
}

/// Whether the tag of a tag's parent is blocked.
fn is_parent_blocked<S: Alter>(
    conn: &mut Connection<S>,
    alloc: Global,
    op: &str,
    parent: &Option<Text>,
) -> Result<bool, StoreFault>
    ensures asks { Asks (state S.Store conn.old) (state S.Store conn.new) result (λ rows blocked. blocked ≡ is_parent_blocked (λ k. is_blocked (tag_in op.now k rows.tags)) parent.now) }
{
    match parent {
        None => Ok(false),
        Some(parent) => {
            let key = TagKey::of(alloc, parent.as_str())?;
            match find_tag(conn, op, key.as_str())? {
                Some(row) => Ok(row.tag.blocked),
                None => Ok(false),
            }
        }
    }
}

/// The tag of a key as it counts.
pub fn own_tag<S: Alter>(
    conn: &mut Connection<S>,
    alloc: Global,
    op: &str,
    key: &str,
) -> Result<Option<Info>, StoreFault>
    ensures asks { Asks (state S.Store conn.old) (state S.Store conn.new) result (λ rows info. info ≡ own_tag_in op.now key.now rows.tags) }
{
    match find_tag(conn, op, key)? {
        None => Ok(None),
        Some(row) => {
            let tag = row.tag;
            let by_parent = is_parent_blocked(conn, alloc, op, &tag.parent)?;
            Ok(Some(Info {
                text: tag.text,
                parent: tag.parent,
                blocked: tag.blocked || by_parent,
                expiry: tag.expiry,
                owner: None,
            }))
        }
    }
}
