//! The tables, and how a database of an earlier form gets those that it lacks.
ghost use Rattle.std.specs.Prelude.{◌≡◌, ◌<◌, ◌≤◌, ◌+◌, IfErr, IsTrue, OnOk, false, ⊤};
ghost use Rattle.sqlite.specs.Held.{state};
ghost use Rattle.sql_tables.specs.Tables.{first_tables, second_tables, third_tables, fourth_tables, fifth_tables, hub_schema};
ghost use Rattle.sql_tables.specs.Opening.{create_by_transaction_at, create_tx_is_open_at, create_tx_start_at, drop_by_transaction_at, no_schema, our_form, schema_at, tables_at};
ghost use Rattle.sql_rows.specs.Opening.{Alters, IsCutAs, IsCutTo, IsEarlier, IsInsideAs, IsInsideWith, MakesOurs, MakesSchema, Prepares, Rested};
ghost use Rattle.store_sql.specs.Faults.{IsFailure};

use crate::fault::{PrepareFault, told};
use sql_edits::move_from;
use sqlite::{Alter, Connection, Error, Transaction, params};
use std::alloc::Global;

/// The number of this schema.
pub(crate) const SCHEMA: u32 = 5;

/// The form of a database with this schema. The forms are numbered in the order in which a database is raised from one to
/// the next: 0 is empty, 1 and 2 are schemas 1 and 2, 3 and 4 are the earlier and the later form of schema 3, and 5 and 6
/// are schemas 4 and 5.
pub(crate) const FORM: u32 = 6;

/// The earlier form of schema 3, whose index of open transactions is that of schema 2.
pub(crate) const EARLIER_THIRD: u32 = 3;

/// Makes a table or an index, or drops an index.
fn alter<S: Alter>(tx: &mut Transaction<'_, S>, sql: &str) -> Result<usize, Error>
    ensures alters { Alters S.Store (λ p. p) sql.now tx.old tx.new result }
{
    tx.execute(sql, &[])
}

/// The next text, if all went well so far.
fn then_alter<S: Alter>(
    tx: &mut Transaction<'_, S>,
    done: Result<(), Error>,
    sql: &str,
) -> Result<(), Error>
    ensures alters { Alters S.Store (OnOk done) sql.now tx.old tx.new result }
{
    match done {
        Ok(()) => match alter(tx, sql) {
            Ok(_) => Ok(()),
            Err(e) => Err(e),
        },
        Err(e) => Err(e),
    }
}

/// The tables of schema 1.
fn create_first<S: Alter>(tx: &mut Transaction<'_, S>) -> Result<(), Error>
    ensures makes { MakesSchema S.Store (IsCutAs 0 no_schema) first_tables tx.old tx.new result }
{
    let done = then_alter(tx, Ok(()), sql_tables::meta::CREATE);
    let done = then_alter(tx, done, sql_tables::stations::CREATE);
    let done = then_alter(tx, done, sql_tables::connectors::CREATE);
    let done = then_alter(tx, done, sql_tables::tags::CREATE);
    let done = then_alter(tx, done, sql_tables::grants::CREATE);
    let done = then_alter(tx, done, sql_tables::txs::CREATE);
    let done = then_alter(tx, done, sql_tables::readings::CREATE);
    let done = then_alter(tx, done, sql_tables::reservations::CREATE);
    let done = then_alter(tx, done, sql_tables::lists::CREATE);
    then_alter(tx, done, sql_tables::list_entries::CREATE)
}

/// The table that schema 2 has beside those of schema 1.
fn create_second<S: Alter>(tx: &mut Transaction<'_, S>) -> Result<(), Error>
    ensures makes { MakesSchema S.Store (IsCutAs 1 first_tables) second_tables tx.old tx.new result }
{
    then_alter(tx, Ok(()), sql_tables::reports::CREATE)
}

/// The tables that schema 3 has beside those of schema 2.
fn create_third<S: Alter>(tx: &mut Transaction<'_, S>) -> Result<(), Error>
    ensures makes { MakesSchema S.Store (IsCutAs 2 second_tables) third_tables tx.old tx.new result }
{
    let done = then_alter(tx, Ok(()), sql_tables::tx_owners::CREATE);
    then_alter(tx, done, sql_tables::uses::CREATE)
}

/// The table that schema 4 has beside those of schema 3.
fn create_fourth<S: Alter>(tx: &mut Transaction<'_, S>) -> Result<(), Error>
    ensures makes { MakesSchema S.Store (IsCutAs 4 third_tables) fourth_tables tx.old tx.new result }
{
    then_alter(tx, Ok(()), sql_tables::meter_values::CREATE)
}

/// The table that schema 5 has beside those of schema 4.
fn create_fifth<S: Alter>(tx: &mut Transaction<'_, S>) -> Result<(), Error>
    ensures makes { MakesSchema S.Store (IsCutAs 5 fourth_tables) fifth_tables tx.old tx.new result }
{
    then_alter(tx, Ok(()), sql_tables::readers::CREATE)
}

/// The tables that the form after this one has beside it. Both forms of schema 3 have the same.
fn create_next<S: Alter>(tx: &mut Transaction<'_, S>, form: u32) -> Result<(), Error>
    requires earlier { form < our_form }
    ensures makes { MakesSchema S.Store (IsCutAs form (tables_at form)) (tables_at (form + 1)) tx.old tx.new result }
{
    match form {
        0 => create_first(tx),
        1 => create_second(tx),
        2 => create_third(tx),
        3 => Ok(()),
        4 => create_fourth(tx),
        _ => create_fifth(tx),
    }
}

/// The tables that the forms after `from` have beside it, up to `to`.
fn create_between<S: Alter>(tx: &mut Transaction<'_, S>, from: u32, to: u32) -> Result<(), Error>
    requires order { from ≤ to }
    requires known { to ≤ our_form }
    ensures makes { MakesSchema S.Store (IsCutAs from (tables_at from)) (tables_at to) tx.old tx.new result }
{
    'forms: for form in from..to {
        create_next(tx, form)?;
    }
    Ok(())
}

/// The text that makes the index of open transactions in a database of that form.
fn create_tx_is_open(form: u32) -> &'static str
    requires { form ≤ our_form }
    ensures { result.now ≡ create_tx_is_open_at form }
{
    match form {
        0 | 1 | 2 | 3 => sql_tables::txs::CREATE_EARLIER_IS_OPEN,
        _ => sql_tables::txs::CREATE_IS_OPEN,
    }
}

/// The text that makes the index of starts there.
fn create_tx_start_at(form: u32) -> &'static str
    requires { form ≤ our_form }
    ensures { result.now ≡ create_tx_start_at form }
{
    match form {
        0 | 1 | 2 | 3 | 4 => sql_tables::txs::CREATE_EARLIER_START_AT,
        _ => sql_tables::txs::CREATE_START_AT,
    }
}

/// The text that makes the index of readings by their transaction there.
fn create_by_transaction(form: u32) -> &'static str
    requires { form ≤ our_form }
    ensures { result.now ≡ create_by_transaction_at form }
{
    match form {
        0 | 1 | 2 | 3 | 4 => sql_tables::readings::CREATE_TRANSACTION,
        _ => sql_tables::meter_values::CREATE_TRANSACTION,
    }
}

/// The text that drops that index there.
fn drop_by_transaction(form: u32) -> &'static str
    requires { form ≤ our_form }
    ensures { result.now ≡ drop_by_transaction_at form }
{
    match form {
        0 | 1 | 2 | 3 | 4 => sql_tables::readings::DROP_TRANSACTION,
        _ => sql_tables::meter_values::DROP_TRANSACTION,
    }
}

/// The further indexes, after the tables of that form.
fn create_indexes<S: Alter>(tx: &mut Transaction<'_, S>, form: u32) -> Result<(), Error>
    requires some { 0 < form }
    requires known { form ≤ our_form }
    ensures makes { MakesSchema S.Store (λ rows. IsInsideAs rows (tables_at form)) (schema_at form) tx.old tx.new result }
{
    let done = then_alter(tx, Ok(()), sql_tables::grants::CREATE_TO);
    let done = then_alter(tx, done, sql_tables::txs::CREATE_IN_USE);
    let done = then_alter(tx, done, create_tx_is_open(form));
    let done = then_alter(tx, done, create_tx_start_at(form));
    then_alter(tx, done, create_by_transaction(form))
}

/// Drops the further indexes of that form, so that tables are made before them.
fn drop_indexes<S: Alter>(tx: &mut Transaction<'_, S>, form: u32) -> Result<(), Error>
    requires some { 0 < form }
    requires known { form ≤ our_form }
    ensures makes { MakesSchema S.Store (λ rows. IsInsideAs rows (schema_at form)) (tables_at form) tx.old tx.new result }
{
    let done = then_alter(tx, Ok(()), sql_tables::grants::DROP_TO);
    let done = then_alter(tx, done, sql_tables::txs::DROP_IN_USE);
    let done = then_alter(tx, done, sql_tables::txs::DROP_IS_OPEN);
    let done = then_alter(tx, done, sql_tables::txs::DROP_START_AT);
    then_alter(tx, done, drop_by_transaction(form))
}

/// Leaves the tables of that form, without its further indexes.
fn leave_tables<S: Alter>(tx: &mut Transaction<'_, S>, form: u32) -> Result<(), Error>
    requires known { form ≤ our_form }
    ensures makes { MakesSchema S.Store (λ rows. IsInsideAs rows (schema_at form)) (tables_at form) tx.old tx.new result }
{
    if form == 0 {
        return Ok(());
    }
    drop_indexes(tx, form)
}

/// Makes of the form `from` the form `to`.
fn make_schema<S: Alter>(tx: &mut Transaction<'_, S>, from: u32, to: u32) -> Result<(), Error>
    requires order { from ≤ to }
    requires known { to ≤ our_form }
    ensures makes { MakesSchema S.Store (IsCutAs from (schema_at from)) (schema_at to) tx.old tx.new result }
{
    if from == to {
        return Ok(());
    }
    leave_tables(tx, from)?;
    create_between(tx, from, to)?;
    create_indexes(tx, to)
}

/// The number of the schema.
fn put_number<S: Alter>(tx: &mut Transaction<'_, S>) -> Result<usize, Error>
    ensures makes { MakesOurs S.Store (λ s. ⊤) IsInsideWith tx.old tx.new result }
{
    tx.execute(sql_tables::meta::PUT, params!["schema", SCHEMA])
}

/// Makes of that form the tables and indexes of this schema.
fn reach<S: Alter>(tx: &mut Transaction<'_, S>, from: u32) -> Result<(), PrepareFault>
    requires known { from ≤ our_form }
    ensures makes { MakesSchema S.Store (IsCutAs from (schema_at from)) hub_schema tx.old tx.new result }
    ensures failure { IfErr result IsFailure }
{
    told(make_schema(tx, from, FORM))
}

/// Makes of that form this schema, with its number. Readings of a form before schema 4 become meter values.
fn fill<S: Alter>(tx: &mut Transaction<'_, S>, alloc: Global, from: u32) -> Result<(), PrepareFault>
    requires earlier { from < our_form }
    ensures makes { MakesOurs S.Store (IsCutTo from) (IsEarlier from) tx.old tx.new result }
    ensures failure { IfErr result IsFailure }
{
    reach(tx, from)?;
    move_from(tx, alloc, from)?;
    told(put_number(tx))
}

/// Makes of a database of an earlier form one of this schema, in one transaction.
pub(crate) fn raise<S: Alter>(
    conn: &mut Connection<S>,
    alloc: Global,
    from: u32,
) -> Result<(), PrepareFault>
    requires rested { Rested (state S.Store conn.old) }
    requires autocommit { conn.old.in_transaction ≡ false }
    requires earlier { from < our_form }
    requires was { IsTrue (state S.Store conn.old).is_open → (state S.Store conn.old).now.schema ≡ schema_at from }
    ensures prepares { Prepares (state S.Store conn.old) (state S.Store conn.new) result }
    ensures failure { IfErr result IsFailure }
{
    let mut tx = conn.transaction();
    fill(&mut tx, alloc, from)?;
    told(tx.commit())
}

/// Makes the tables and indexes of that form in an empty database.
pub(crate) fn make_tables<S: Alter>(conn: &mut Connection<S>, form: u32) -> Result<(), Error>
    requires rested { Rested (state S.Store conn.old) }
    requires autocommit { conn.old.in_transaction ≡ false }
    requires blank { (state S.Store conn.old).now.schema ≡ no_schema }
    requires known { form ≤ our_form }
    ensures made { IsTrue (state S.Store conn.new).is_open → OnOk result ((state S.Store conn.new).now.schema ≡ schema_at form) }
{
    let mut tx = conn.transaction();
    make_schema(&mut tx, 0, form)?;
    tx.commit()
}
