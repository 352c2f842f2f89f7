//! The command line of the program: its commands with their options and their help, and what the words of one ask for.
#![tactic(auto)]

mod arguments;
mod command;
mod help;
mod options;
mod sim_command;

pub use arguments::VERSION;
pub use command::{Plan, asks_for_forms, read};
pub use options::{
    Commit, FileOptions, FollowOptions, JournalOptions, ReplayOptions, ServeOptions,
};
