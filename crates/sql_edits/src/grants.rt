//! Edits of grants.
ghost use Rattle.sqlite.specs.Held.{state};
ghost use Rattle.sql_rows.specs.Kept.{Edits};
ghost use Rattle.hub_rows.specs.Changes.{edit};
ghost use Rattle.hub_rows.specs.declared.change.Edit.TheVariants.{Tags};
ghost use Rattle.hub_rows.specs.declared.change.TagEdit.TheVariants.{GrantPut, GrantDropped};

use crate::binds::{done, seconds_if_any};
use hub_rows::StoreFault;
use ocpp_types::Moment;
use sqlite::{Alter, Connection, params};

/// Puts a grant of a tag, in place of the one to that operator.
pub(crate) fn put_grant<S: Alter>(
    conn: &mut Connection<S>,
    op: &str,
    key: &str,
    to: &str,
    until: &Option<Moment>,
) -> Result<(), StoreFault>
    ensures edits { Edits (edit op.now (Tags (GrantPut key.now to.now until.now))) (state S.Store conn.old) (state S.Store conn.new) result }
{
    done(conn.execute(
        sql_tables::grants::PUT,
        params![op, key, to, seconds_if_any(until)],
    ))
}

/// Drops a grant of a tag.
pub(crate) fn drop_grant<S: Alter>(
    conn: &mut Connection<S>,
    op: &str,
    key: &str,
    to: &str,
) -> Result<(), StoreFault>
    ensures edits { Edits (edit op.now (Tags (GrantDropped key.now to.now))) (state S.Store conn.old) (state S.Store conn.new) result }
{
    done(conn.execute(sql_tables::grants::DROP, params![op, key, to]))
}
