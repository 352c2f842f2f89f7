//! The edit that forgets rows of a station's history.
ghost use Rattle.std.specs.Prelude.{◌≡◌, ◌==◌};
ghost use Rattle.hub_rows.specs.Changes.{edit};
ghost use Rattle.hub_rows.specs.Forgetting.{has_number};
ghost use Rattle.hub_rows.specs.declared.change.Edit.TheVariants as edits;
ghost use Rattle.hub_rows.specs.declared.change.TransactionEdit.TheVariants.{Forgotten};
ghost use Rattle.sqlite.specs.Held.{state};
ghost use Rattle.sql_rows.specs.Kept.{Edits};
ghost use Rattle.sql_edits.specs.Forget.{drop_text, dropped};

use crate::binds::done;
use hub_rows::{Forgettable, StoreFault};
use sqlite::{Alter, Connection, params};

/// A table of a station's history.
#[derive(Clone, Copy, Drop)]
enum HistoryTable {
    MeterValues,
    Transactions,
    Owners,
}

impl HistoryTable {
    /// The statement that drops the rows of a station whose numbers lie in a range.
    fn drop_text(self) -> &'static str
        ensures { result.now ≡ drop_text self }
    {
        match self {
            HistoryTable::MeterValues => sql_tables::meter_values::DROP,
            HistoryTable::Transactions => sql_tables::txs::DROP,
            HistoryTable::Owners => sql_tables::tx_owners::DROP,
        }
    }
}

/// Drops the row of a station with that number.
fn drop_row<S: Alter>(
    conn: &mut Connection<S>,
    history: HistoryTable,
    op: &str,
    station: &str,
    number: u32,
) -> Result<(), StoreFault>
    ensures edits { Edits (dropped history op.now station.now (λ n. number == n)) (state S.Store conn.old) (state S.Store conn.new) result }
{
    done(conn.execute(history.drop_text(), params![op, station, number, number]))
}

/// Drops the rows of a station with these numbers.
fn drop_rows<S: Alter>(
    conn: &mut Connection<S>,
    history: HistoryTable,
    op: &str,
    station: &str,
    numbers: &[u32],
) -> Result<(), StoreFault>
    ensures edits { Edits (dropped history op.now station.now (has_number numbers.now)) (state S.Store conn.old) (state S.Store conn.new) result }
{
    'numbers: for number in numbers {
        drop_row(conn, history, op, station, *number)?;
    }
    Ok(())
}

/// Drops the rows of a station that are forgotten.
pub(crate) fn forget<S: Alter>(
    conn: &mut Connection<S>,
    op: &str,
    station: &str,
    rows: &Forgettable,
) -> Result<(), StoreFault>
    ensures edits { Edits (edit op.now (edits.Transactions (Forgotten station.now rows.now))) (state S.Store conn.old) (state S.Store conn.new) result }
{
    let values = rows.meter_values.as_slice();
    let txs = rows.transactions.as_slice();
    drop_rows(conn, HistoryTable::MeterValues, op, station, values)?;
    drop_rows(conn, HistoryTable::Transactions, op, station, txs)?;
    drop_rows(conn, HistoryTable::Owners, op, station, txs)
}
