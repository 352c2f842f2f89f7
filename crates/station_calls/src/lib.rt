//! The calls of stations decided: the rules of all actions, and the handlers of vendors' messages.
#![tactic(auto)]

mod book;
mod calls;
mod core_handler;
mod echo;
mod vendor;

pub use book::Book;
pub use calls::decide;
pub use core_handler::CoreHandler;
pub use echo::Echo;
pub use vendor::{VendorAnswer, VendorHandler, ask, lent};
