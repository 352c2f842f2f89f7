//! Lines: events read from them, outputs printed as them.
#![tactic(auto)]

mod added_line;
mod fields;
mod forms;
mod input_line;
mod journal;
mod json_texts;
mod list_forms;
mod mark;
mod order;
mod output_line;
mod rows;
mod words;

pub use added_line::add_line;
pub use input_line::{Line, MAX_LINE, read_event, read_line};
pub use journal::journal_line;
pub use mark::{Bounds, bounds_of, mark_of};
pub use order::read_order;
pub use output_line::print_out;
pub use words::first_word;
