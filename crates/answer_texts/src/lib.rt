//! The texts of answers to stations' requests, each written once, into the text that is sent.
#![tactic(auto)]

mod answer;
mod pieces;

pub use answer::answer_text;
