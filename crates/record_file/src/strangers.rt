//! Operators on record that aren't hosted.

use hub_rows::{is_hosted, is_operator_name};
use ocpp_types::{Mem, Text};
use sqlite::Alter;
use std::alloc::Global;
use store_sql::SqlStore;
use telemetry::takes_line;

/// How many operators on record are compared with the hosted ones.
const MOST_COMPARED: usize = 1_000;

/// Warns on standard error of operators that have stations on record and aren't hosted, as those of a name that is misspelled
/// are shut out. What can't be written is lost.
pub fn warn_of_strangers<A: Alter>(
    rt: &HostRuntime,
    store: &mut SqlStore<A>,
    hosted: &[Text],
) -> Mem<()> {
    for operator in strangers_in(rt.alloc(), store, hosted)? {
        if takes_line(0) {
            let _ = eprintln!(rt;
                "warning: {operator} has stations on record and is not hosted: a name of --operators may be misspelled"
            );
        }
    }
    Ok(())
}

/// The operators with stations on record that aren't among these and could be, in the order of their names. Where the
/// records can't be read any further, those up to there. It visits each station once, by the index of the primary key.
fn strangers_in<A: Alter>(
    alloc: Global,
    store: &mut SqlStore<A>,
    hosted: &[Text],
) -> Mem<Vec<Text>> {
    let mut strangers = Vec::new(alloc);
    let mut last = Text::copy_of(alloc, "")?;
    for _ in 0..MOST_COMPARED {
        let operator = match store.next_operator(last.as_str()) {
            Ok(Some(operator)) => operator,
            Ok(None) | Err(_) => break,
        };
        if is_operator_name(operator.as_str()) && !is_hosted(hosted, operator.as_str()) {
            strangers.push(operator.clone()?)?;
        }
        last = operator;
    }
    Ok(strangers)
}
