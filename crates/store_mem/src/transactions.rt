//! Transactions, with what finds them.
ghost use Rattle.std.specs.Prelude.{◌≡◌, [], option_map, IfOk, OnOk, OnErr};
ghost use Rattle.std.specs.List.{AllByRecursion};
ghost use Rattle.std.specs.List.Sorted.{IsStrictlySortedBy};
ghost use Rattle.std.proofs.Props.{props};
ghost use Rattle.hub_rows.specs.Changes.{tx_row, with_stop, IsStopped};
ghost use Rattle.hub_rows.specs.Forgetting.{is_one_of};
ghost use Rattle.hub_rows.specs.Keyed.{by_key, changed, found, put, without, number_key};
ghost use Rattle.hub_rows.specs.Rows.{tx_key};
ghost use Rattle.hub_rows.specs.Transactions.{counts, is_open, is_tx, is_used_in, same_start_in, tx_in, has_open_in, open_txs_in, last_tx_in, txs_in, txs_from_in, AreNext};
ghost use Rattle.store_mem.specs.NamedGroups.{all_rows, AreGrouped};
ghost use Rattle.store_mem.specs.Open.{AreOpens};
ghost use Rattle.store_mem.specs.Starts.{AreStarts};

use crate::named_groups::{NamedGroup, make_room_at, put_at, rows_at};
use crate::near::Near;
use crate::open::{
    OpenRow, close, close_tag, has_at, has_other, make_room_if, open_of, put_counted, txs_of,
};
use crate::starts::{StartRow, drop_starts, number_of, start_of};
use crate::station_rows::{drop_numbers, last_number, put_last, row_of_number, rows_from, rows_of};
use crate::tx_rows::{started, stop_tx};
use hub_rows::{Start, StartKey, Stop, TxKey, TxRow, TxState};
use ocpp_types::{Listed, Mem, Text};
use std::alloc::Global;

/// The transactions of all operators.
#[derive(Drop)]
pub struct Transactions {
    alloc: Global,
    /// All of them, by their stations.
    pub rows: Vec<NamedGroup<TxRow>>,
    /// Those by which tags are in use, by the keys of the tags.
    opens: Vec<NamedGroup<OpenRow>>,
    /// The open ones, those of each operator under its own name.
    open_txs: Vec<NamedGroup<OpenRow>>,
    /// The starts of each station's, in the order of their times.
    starts: Vec<NamedGroup<StartRow>>,
    /// Where a station's group is looked for first among `rows`.
    near: Near,
    /// The same among `starts`.
    near_starts: Near,
    ghost by_station: { AreGrouped (λ r. r.op) (λ r. r.station) (λ r. r.number) rows.items } by { Prim.hlevel props },
    ghost sorted: { IsStrictlySortedBy (by_key tx_key) (all_rows rows.items) } by { Prim.hlevel props },
    ghost in_use: { AreOpens counts (λ r. r.start.id.key) opens.items (all_rows rows.items) } by { Prim.hlevel props },
    ghost opened: { AreOpens is_open (λ r. r.op) open_txs.items (all_rows rows.items) } by { Prim.hlevel props },
    ghost started: { AreStarts starts.items (all_rows rows.items) } by { Prim.hlevel props },
}

impl Transactions {
    /// No transactions, which take no memory yet.
    pub fn new(alloc: Global) -> Transactions
        ensures { all_rows result.rows.items ≡ [] }
    {
        Transactions {
            alloc,
            rows: Vec::new(alloc),
            opens: Vec::new(alloc),
            open_txs: Vec::new(alloc),
            starts: Vec::new(alloc),
            near: Near::new(alloc),
            near_starts: Near::new(alloc),
        }
    }

    /// From now on the station's row is at that index, by which its group is looked for.
    pub fn look_near(&mut self, near: usize)
        ensures { all_rows self.new.rows.items ≡ all_rows self.old.rows.items }
    {
        self.near.look(near);
        self.near_starts.look(near);
    }

    /// Adds a transaction after those of its station.
    pub fn start(&mut self, op: &Text, station: &Text, number: u32, start: &Start) -> Mem<()>
        requires { AreNext (last_tx_in op.now station.now (all_rows self.old.rows.items)) number 1 }
        ensures ok { OnOk result (all_rows self.new.rows.items ≡ put (by_key tx_key) (tx_row op.now station.now number start.now) (all_rows self.old.rows.items)) }
        ensures err { OnErr result (all_rows self.new.rows.items ≡ all_rows self.old.rows.items) }
    {
        let row = started(op, station, number, start)?;
        let start_row = start_of(&row)?;
        let open_row = open_of(&row)?;
        let used_row = open_of(&row)?;
        let counts = row.counts();
        self.near.make_room(self.alloc);
        self.near_starts.make_room(self.alloc);
        let (op, station) = (op.as_str(), station.as_str());
        let key = start.id.key.as_str();
        make_room_at(
            self.alloc,
            &mut self.starts,
            Some(&self.near_starts),
            op,
            station,
        )?;
        make_room_if(self.alloc, &mut self.opens, op, key, counts)?;
        make_room_at(self.alloc, &mut self.open_txs, None, op, op)?;
        make_room_at(self.alloc, &mut self.rows, Some(&self.near), op, station)?;
        put_at(
            &mut self.starts,
            Some(&self.near_starts),
            op,
            station,
            start_row,
        );
        put_counted(&mut self.opens, op, key, used_row, counts);
        put_at(&mut self.open_txs, None, op, op, open_row);
        put_last(&mut self.rows, Some(&self.near), row);
        Ok(())
    }

    /// Stops a transaction, if it is there.
    pub fn stop(&mut self, op: &str, station: &str, number: u32, stop: Stop)
        ensures { all_rows self.new.rows.items ≡ changed (λ r. r.op) op.now (is_tx station.now number) (with_stop stop) (all_rows self.old.rows.items) }
    {
        close(&mut self.open_txs, op, op, station, number);
        close_tag(
            &mut self.opens,
            &self.rows,
            Some(&self.near),
            op,
            station,
            number,
        );
        stop_tx(&mut self.rows, Some(&self.near), op, station, number, stop);
    }

    /// Drops the transactions of a station that have these numbers, all of which are stopped. It can't fail.
    pub fn forget(&mut self, op: &str, station: &str, numbers: &[u32])
        requires { AllByRecursion (λ n. IsStopped (tx_in op.now station.now n (all_rows self.old.rows.items))) numbers.now }
        ensures { all_rows self.new.rows.items ≡ without (λ r. r.op) op.now (is_one_of (λ r. r.station) (λ r. r.number) station.now numbers.now) (all_rows self.old.rows.items) }
    {
        drop_starts(&mut self.starts, op, station, numbers);
        drop_numbers(&mut self.rows, op, station, numbers);
    }

    /// Whether the tag of a key is in use, by another transaction than the one left out.
    pub fn is_used(&self, op: &str, key: &str, except: &Option<TxKey>) -> bool
        ensures { result ≡ is_used_in op.now key.now except.now (all_rows self.now.rows.items) }
    {
        has_other(rows_at(&self.opens, None, op, key), except)
    }

    /// The number of the first transaction of a station with that start.
    pub fn same_start(&self, op: &str, station: &str, start: &StartKey) -> Option<u32>
        ensures { result ≡ same_start_in op.now station.now start.now (all_rows self.now.rows.items) }
    {
        number_of(
            rows_at(&self.starts, Some(&self.near_starts), op, station),
            start,
        )
    }

    /// Whether a transaction of a station is open.
    pub fn has_open(&self, op: &str, station: &str) -> bool
        ensures { result ≡ has_open_in op.now station.now (all_rows self.now.rows.items) }
    {
        has_at(rows_at(&self.open_txs, None, op, op), station)
    }

    /// A transaction of a station, by its number.
    pub fn row(&self, op: &str, station: &str, number: u32) -> Option<&TxRow>
        ensures { option_map (λ r. r.now) result ≡ found (λ r. r.op) op.now (is_tx station.now number) (all_rows self.now.rows.items) }
    {
        row_of_number(&self.rows, Some(&self.near), op, station, number)
    }

    /// What rules ask of it.
    pub fn state(&self, op: &str, station: &str, number: u32) -> Option<TxState>
        ensures { result ≡ tx_in op.now station.now number (all_rows self.now.rows.items) }
    {
        self.row(op, station, number).map(|row| row.state())
    }

    /// The transactions of a station from a number on.
    pub fn of_station(&self, op: &str, station: &str, first: u32) -> &[TxRow]
        ensures { result.now ≡ txs_from_in op.now station.now first (all_rows self.now.rows.items) }
    {
        rows_from(&self.rows, Some(&self.near), op, station, first)
    }

    /// All transactions of a station.
    pub fn rows_of(&self, op: &str, station: &str) -> &[TxRow]
        ensures rows { result.now ≡ txs_in op.now station.now (all_rows self.now.rows.items) }
        ensures sorted { IsStrictlySortedBy (by_key (number_key (λ r. r.number))) result.now }
    {
        rows_of(&self.rows, Some(&self.near), op, station)
    }

    /// Copies of the open transactions of an operator.
    pub fn open_copies(&self, op: &str) -> Mem<Listed<TxRow>>
        ensures { IfOk result (λ l. l ≡ open_txs_in op.now (all_rows self.now.rows.items)) }
    {
        let opens = rows_at(&self.open_txs, None, op, op);
        txs_of(self.alloc, &self.rows, op, opens)
    }

    /// The number of a station's last transaction, 0 where there is none.
    pub fn last_number(&self, op: &str, station: &str) -> u32
        ensures { result ≡ last_tx_in op.now station.now (all_rows self.now.rows.items) }
    {
        last_number(rows_of(&self.rows, Some(&self.near), op, station))
    }
}
