//! Typed rows that are kept in tables: how they are read, and the laws of the statements that read and change them.
#![tactic(auto)]

mod columns;
mod holding_rows;
mod list_rows;
mod meta_rows;
mod meter_value_rows;
mod reading_rows;
mod station_rows;
mod stored;
mod tag_rows;
mod tx_rows;

pub use columns::told;
pub use list_rows::{EntryRow, ListHead};
pub use meta_rows::MetaRow;
pub use reading_rows::ReadingRow;
pub use stored::{Stored, first_row, is_found, listed, only_number, only_pair, only_text};
