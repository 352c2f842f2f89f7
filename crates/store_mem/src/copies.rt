//! Copies of rows, for lists that are asked for whole.
ghost use Rattle.std.specs.Prelude.{◌≡◌, true, IfOk};
ghost use Rattle.hub_rows.specs.Keyed.{those};

use hub_rows::NamedRow;
use ocpp_types::{Listed, Mem};
use std::alloc::Global;

/// A copy of a row, or of what is in one.
pub fn copy<R: Clone>(row: &R) -> Mem<R>
    requires { (row copy : R) → R.is_clone row copy → copy ≡ row }
    ensures { IfOk result (λ copy. copy ≡ row.now) }
{
    Ok(row.clone()?)
}

/// Copies of all rows.
pub fn copies<R: Clone + Drop>(alloc: Global, rows: &[R]) -> Mem<Listed<R>>
    requires { (row copy : R) → R.is_clone row copy → copy ≡ row }
    ensures { IfOk result (λ l. l ≡ rows.now) }
{
    Ok(Listed::from(rows.to_vec(alloc)?))
}

/// Copies of the rows of one operator.
#[tactic(auto, using(hub_rows::proofs::Steps::drop_here))]
pub fn own_copies<R: NamedRow + Clone>(alloc: Global, rows: &[R], op: &str) -> Mem<Listed<R>>
    requires { (row copy : R) → R.is_clone row copy → copy ≡ row }
    ensures { IfOk result (λ l. l ≡ those R.op op.now (λ r. true) rows.now) }
{
    let mut list = Listed::new(alloc);
    for row in rows {
        if row.op() == op {
            list.push(row.clone()?)?;
        }
    }
    Ok(list)
}
