//! Records in the file of a database: how it is made and opened, and what is said of one that can't be used.
#![tactic(auto)]

mod fault;
mod file_fault;
mod new_file;
mod records;
mod strangers;

pub use fault::OpenFault;
pub use records::open;
pub use strangers::warn_of_strangers;
