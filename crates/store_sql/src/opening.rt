//! How a connection is made ready: the tables of a database are taken, those that it lacks of this schema are made, and
//! what isn't ours is refused.
ghost use Rattle.std.specs.Prelude.{◌≡◌, ◌≢◌, ◌↔◌, [], ◌∷◌, ℕ, ℤ, ◌<◌, ◌≤◌, ◌⊎◌, IfErr, IfOk, IsTrue, MatchOption, OnOk, None, Some, false, filter, find, map};
ghost use Rattle.sqlite_rules.specs.Lists.{Has};
ghost use Rattle.sqlite_value.specs.declared.value.Value.TheVariants.{Int, Text};
ghost use Rattle.sqlite.specs.Held.{state};
ghost use Rattle.sqlite.specs.Steps.{over_memory};
ghost use Rattle.sqlite.specs.State.{HasCleanDisk};
ghost use Rattle.sqlite.specs.Effect.{IsDatabase};
ghost use Rattle.sql_tables.specs.Opening.{no_schema, number_of, our_form, our_number, schema_at};
ghost use Rattle.hub_rows.specs.Keyed.{put_all};
ghost use Rattle.sql_rows.specs.Kept.{IsServing, changes_in, is_count};
ghost use Rattle.sql_rows.specs.Opening.{Rested, IsSpared, Prepares};
ghost use Rattle.sql_rows.specs.TypedTable.{cmp, rows_in};
ghost use Rattle.sql_rows.specs.TypedTables.{metas};
ghost use Rattle.store_sql.specs.Faults.{AcceptsOurs, AcceptsServing, FindsNumber, IsFailure};
ghost use Rattle.store_sql.specs.Known.{IsKnown, IsSchemaOf, ShowsNumber, number_row};
ghost use Rattle.store_sql.specs.Simple.{IsSimple};

use crate::fault::{PrepareFault, fault};
use crate::same::{is_blank, same_schema};
use crate::tables::{EARLIER_THIRD, FORM, SCHEMA, make_tables, raise};
use hub_rows::StoreFault;
use sql_rows::{MetaRow, first_row};
use sqlite::{Alter, Connection, Error, MemStore, Row, params};
use sqlite_value::value::ValueRef;
use std::alloc::Global;

/// How many tables this schema has.
const TABLES: usize = 15;

/// All rows of `hub_meta`, as it is in any database. Nothing changes, whatever the text means there.
fn meta_rows<S: Alter>(conn: &mut Connection<S>) -> Result<Vec<Row>, Error>
    requires rested { Rested (state S.Store conn.old) }
    requires autocommit { conn.old.in_transaction ≡ false }
    ensures spared { IsSpared (state S.Store conn.old) (state S.Store conn.new) }
    ensures shown { (form : ℕ) → IsKnown form (state S.Store conn.old).now → IsTrue (state S.Store conn.new).is_open → IfOk result (λ v. ShowsNumber (number_of form) v.items) }
{
    let mut tx = conn.transaction();
    let rows = tx.query_all(sql_tables::meta::LIST, &[]);
    tx.rollback();
    rows
}

fn is_like<S: Alter>(conn: &Connection<S>, model: &Connection<MemStore>) -> bool
    ensures { IsTrue result ↔ (((state S.Store conn.now).now.schema ≡ (state over_memory model.now).now.schema) × IsSimple (state over_memory model.now).now.schema) }
{
    same_schema(conn.schema(), model.schema())
}

pub(crate) fn is_new<S: Alter>(conn: &Connection<S>) -> bool
    ensures { IsTrue result ↔ ((state S.Store conn.now).now.schema ≡ no_schema) }
{
    is_blank(conn.schema())
}

/// Whether there are as many tables as this schema has, which are more than any earlier one has.
pub(crate) fn has_all_tables<S: Alter>(conn: &Connection<S>) -> bool
    ensures { IsTrue result → (form : ℕ) → form < our_form → (state S.Store conn.now).now.schema ≢ schema_at form }
{
    conn.schema().tables.len() >= TABLES
}

/// A database with the tables and indexes of that form, kept in memory.
fn model(alloc: Global, form: u32) -> Result<Connection<MemStore>, Error>
    requires { form ≤ our_form }
    ensures { IfOk result (λ c. (state over_memory c).now.schema ≡ schema_at form) }
{
    let mut conn = Connection::open_in_memory(alloc)?;
    make_tables(&mut conn, form)?;
    Ok(conn)
}

/// The number of a row of two columns, a name and a number, that has that name.
fn number_named(row: &Row, name: &[u8]) -> Option<i64>
    ensures { (n : ℤ) → (result ≡ Some n) ↔ (row.now ≡ Text name.now ∷ Int n ∷ []) }
{
    match (row.column_count(), row.get_ref(0), row.get_ref(1)) {
        (2, Ok(ValueRef::Text(text)), Ok(ValueRef::Int(number))) if text == name => Some(number),
        _ => None,
    }
}

/// The number of the first row named `schema`.
fn schema_number(rows: &[Row]) -> Option<i64>
    ensures { MatchOption result ((n : ℤ) → Has rows.now (number_row n) → ⊥) (λ n. Has rows.now (number_row n)) }
{
    'rows: for row in rows {
        if let Some(number) = number_named(row, b"schema") {
            return Some(number);
        }
    }
    None
}

/// The number of the schema of a database that isn't empty, by the rows of its `hub_meta`.
fn number_on_record<S: Alter>(
    conn: &Connection<S>,
    rows: Result<Vec<Row>, Error>,
) -> Result<u32, PrepareFault>
    ensures known { IfOk result (λ number. number ≤ our_number) }
    ensures finds { (form : ℕ) → IsSchemaOf form (state S.Store conn.now).now.schema → IfOk rows (λ v. ShowsNumber (number_of form) v.items) → FindsNumber (number_of form) result }
{
    if conn.schema().table_named(b"hub_meta").is_none() {
        return Err(PrepareFault::NotOurs);
    }
    let rows = match rows {
        Ok(rows) => rows,
        Err(error) => return Err(fault(error)),
    };
    let number = match schema_number(&rows) {
        Some(number) => number,
        None => return Err(PrepareFault::NotOurs),
    };
    if number > i64::from(SCHEMA) {
        return Err(PrepareFault::Newer);
    }
    if number < 1 {
        return Err(PrepareFault::NotOurs);
    }
    Ok(number as u32)
}

/// Whether the database has exactly the tables and indexes of that form.
fn has_form<S: Alter>(conn: &Connection<S>, alloc: Global, form: u32) -> Result<bool, PrepareFault>
    requires { form ≤ our_form }
    ensures is { IfOk result (λ has. IsTrue has ↔ ((state S.Store conn.now).now.schema ≡ schema_at form)) }
    ensures failure { IfErr result IsFailure }
{
    match model(alloc, form) {
        Ok(model) => Ok(is_like(conn, &model)),
        Err(error) => Err(fault(error)),
    }
}

/// The last form of the schema of that number.
fn last_form(number: u32) -> u32
    requires { number ≤ our_number }
    ensures known { result ≤ our_form }
    ensures last { (form : ℕ) → form ≤ our_form → number_of form ≡ number → (form ≡ result) ⊎ ((number ≡ 3) × (form ≡ 3)) }
{
    if number < 3 { number } else { number + 1 }
}

/// The form of a database with that number on record, if it has exactly the tables and indexes of one of its schema.
fn form_of<S: Alter>(conn: &Connection<S>, alloc: Global, number: u32) -> Result<u32, PrepareFault>
    requires { number ≤ our_number }
    ensures form { IfOk result (λ form. (form ≤ our_form) × ((state S.Store conn.now).now.schema ≡ schema_at form)) }
    ensures accepts { (form : ℕ) → IsSchemaOf form (state S.Store conn.now).now.schema → number_of form ≡ number → IfErr result IsFailure }
{
    let last = last_form(number);
    if has_form(conn, alloc, last)? {
        return Ok(last);
    }
    if number == 3 && has_form(conn, alloc, EARLIER_THIRD)? {
        return Ok(EARLIER_THIRD);
    }
    Err(PrepareFault::OtherSchema)
}

/// The form of the database, by the rows of its `hub_meta` and by its tables and indexes.
fn verdict<S: Alter>(
    conn: &Connection<S>,
    alloc: Global,
    rows: Result<Vec<Row>, Error>,
) -> Result<u32, PrepareFault>
    ensures form { IfOk result (λ form. (form ≤ our_form) × ((state S.Store conn.now).now.schema ≡ schema_at form)) }
    ensures accepts { (form : ℕ) → IsSchemaOf form (state S.Store conn.now).now.schema → IfOk rows (λ v. ShowsNumber (number_of form) v.items) → IfErr result IsFailure }
{
    let number = number_on_record(conn, rows)?;
    form_of(conn, alloc, number)
}

/// Whether the connection is open, as it is where it compiles a text. Nothing changes.
fn still_open<S: Alter>(conn: &mut Connection<S>) -> Result<(), PrepareFault>
    requires settled { IsTrue (state S.Store conn.old).is_open → (state S.Store conn.old).committed ≡ (state S.Store conn.old).now }
    requires autocommit { conn.old.in_transaction ≡ false }
    ensures spared { IsSpared (state S.Store conn.old) (state S.Store conn.new) }
    ensures up { HasCleanDisk (state S.Store conn.new) → OnOk result (IsTrue (state S.Store conn.new).is_open) }
    ensures failure { IfErr result IsFailure }
{
    match conn.prepare(sql_tables::meta::LIST) {
        Ok(_) => Ok(()),
        Err(error) => Err(fault(error)),
    }
}

/// The form of a database that isn't empty. Nothing changes.
fn look<S: Alter>(conn: &mut Connection<S>, alloc: Global) -> Result<u32, PrepareFault>
    requires rested { Rested (state S.Store conn.old) }
    requires autocommit { conn.old.in_transaction ≡ false }
    ensures spared { IsSpared (state S.Store conn.old) (state S.Store conn.new) }
    ensures up { HasCleanDisk (state S.Store conn.new) → OnOk result (IsTrue (state S.Store conn.new).is_open) }
    ensures form { IfOk result (λ form. (form ≤ our_form) × (IsTrue (state S.Store conn.new).is_open → (state S.Store conn.new).now.schema ≡ schema_at form)) }
    ensures accepts { (form : ℕ) → IsKnown form (state S.Store conn.old).now → IsTrue (state S.Store conn.new).is_open → IfErr result IsFailure }
{
    let rows = meta_rows(conn);
    let form = verdict(conn, alloc, rows)?;
    still_open(conn)?;
    Ok(form)
}

fn prepare_rested<S: Alter>(conn: &mut Connection<S>, alloc: Global) -> Result<(), PrepareFault>
    requires rested { Rested (state S.Store conn.old) }
    requires autocommit { conn.old.in_transaction ≡ false }
    ensures prepares { Prepares (state S.Store conn.old) (state S.Store conn.new) result }
    ensures accepts { (form : ℕ) → IsKnown form (state S.Store conn.old).now → IsTrue (state S.Store conn.new).is_open → IfErr result IsFailure }
    ensures accepts_empty { (state S.Store conn.old).now.schema ≡ no_schema → IfErr result IsFailure }
{
    if is_new(conn) {
        return raise(conn, alloc, 0);
    }
    let form = look(conn, alloc)?;
    if form == FORM {
        return Ok(());
    }
    raise(conn, alloc, form)
}

fn is_settled<S: Alter>(conn: &Connection<S>) -> bool
    ensures sound { IsTrue (state S.Store conn.now).is_open → IsDatabase (state S.Store conn.now).now }
    ensures settled { IsTrue result → IsTrue (state S.Store conn.now).is_open → (state S.Store conn.now).committed ≡ (state S.Store conn.now).now }
    ensures mode { IsTrue result → conn.now.in_transaction ≡ false }
{
    let _ = conn.schema();
    conn.is_autocommit()
}

/// Makes the tables in an empty database, or takes those that are there. A database of an earlier schema becomes one of
/// this schema, in one transaction, and keeps its records. Both forms of schema 3 are taken.
///
/// A connection inside a transaction answers Failed. The limit of steps is taken off.
pub fn prepare<S: Alter>(conn: &mut Connection<S>, alloc: Global) -> Result<(), PrepareFault>
    ensures prepares { Prepares (state S.Store conn.old) (state S.Store conn.new) result }
    ensures serving { AcceptsServing (state S.Store conn.old) (state S.Store conn.new) result }
    ensures ours { AcceptsOurs (state S.Store conn.old) (state S.Store conn.new) result }
{
    if !is_settled(conn) {
        return Err(PrepareFault::Failed);
    }
    conn.set_step_limit(None);
    prepare_rested(conn, alloc)
}

/// The row that counts changes. Nothing changes, whatever the text means there.
fn count_rows<S: Alter>(conn: &mut Connection<S>) -> Result<Vec<Row>, Error>
    requires settled { IsTrue (state S.Store conn.old).is_open → (state S.Store conn.old).committed ≡ (state S.Store conn.old).now }
    requires autocommit { conn.old.in_transaction ≡ false }
    ensures spared { IsSpared (state S.Store conn.old) (state S.Store conn.new) }
    ensures shown { IsServing (state S.Store conn.old) → IsTrue (state S.Store conn.new).is_open → IfOk result (λ v. put_all (cmp metas) (map metas.read v.items) [] ≡ filter is_count (rows_in metas (state S.Store conn.old).now.trees)) }
{
    let mut tx = conn.transaction();
    let rows = tx.query_all(sql_tables::meta::FIND, params!["changes"]);
    tx.rollback();
    rows
}

fn count_row<S: Alter>(conn: &mut Connection<S>) -> Result<Option<MetaRow>, StoreFault>
    requires settled { IsTrue (state S.Store conn.old).is_open → (state S.Store conn.old).committed ≡ (state S.Store conn.old).now }
    requires autocommit { conn.old.in_transaction ≡ false }
    ensures spared { IsSpared (state S.Store conn.old) (state S.Store conn.new) }
    ensures found { IsServing (state S.Store conn.old) → IsTrue (state S.Store conn.new).is_open → IfOk result (λ row. row ≡ find is_count (rows_in metas (state S.Store conn.old).now.trees)) }
{
    first_row(count_rows(conn))
}

/// How many changes are on record in a database that is ours, 0 where no count is on record. Nothing changes.
pub(crate) fn changes<S: Alter>(conn: &mut Connection<S>) -> Result<u64, PrepareFault>
    ensures spared { IsSpared (state S.Store conn.old) (state S.Store conn.new) }
    ensures up { HasCleanDisk (state S.Store conn.new) → OnOk result (IsTrue (state S.Store conn.new).is_open) }
    ensures found { IsServing (state S.Store conn.old) → IsTrue (state S.Store conn.new).is_open → IfOk result (λ n. n ≡ changes_in (state S.Store conn.old).now.trees) }
{
    if !is_settled(conn) {
        return Err(PrepareFault::Failed);
    }
    let row = count_row(conn)?;
    still_open(conn)?;
    match row {
        Some(row) => Ok(row.number),
        None => Ok(0),
    }
}
