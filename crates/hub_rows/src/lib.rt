//! The records of all operators, the changes of them, and what a store of them promises.
#![tactic(auto)]

mod change;
mod connector_row;
mod forgettable;
mod forgotten;
mod grant_row;
mod info;
mod list_row;
mod meter_value_row;
mod named_row;
mod operators;
mod ordered;
mod reader_row;
mod reopens;
mod report_row;
mod reservation_row;
mod station_row;
mod store;
mod tag_row;
mod tx_row;
mod use_row;

pub use change::{Change, Edit, HoldingEdit, StationEdit, TagEdit, TransactionEdit};
pub use connector_row::{ConnectorReport, ConnectorRow};
pub use forgettable::{Forgettable, History, MAX_FORGOTTEN, MAX_READINGS};
pub use forgotten::{goes_with, oldest, oldest_values};
pub use grant_row::GrantRow;
pub use info::{GrantedTag, Info};
pub use list_row::{ListRow, LocalList, LocalTag};
pub use meter_value_row::{MeterValue, MeterValueRow, is_sent_with};
pub use named_row::{
    NamedRow, name_digest, place_near, place_of_name, remove_row, row_near, row_of,
};
pub use operators::{MAX_OPERATOR, are_operators, is_hosted, is_operator_name};
pub use ordered::{Keyed, put_ready, put_row};
pub use reader_row::{Reader, ReaderRow};
pub use reopens::Reopens;
pub use report_row::{ReportRow, ReportedStatus};
pub use reservation_row::{Reservation, ReservationId, ReservationRow};
pub use station_row::{Boot, Registration, StationRow};
pub use store::{Flush, Recovered, Store, StoreFault};
pub use tag_row::{Tag, TagRow};
pub use tx_row::{LAST_NUMBER, Start, StartKey, Stop, TxKey, TxOwnerRow, TxRow, TxState};
pub use use_row::UseRow;
