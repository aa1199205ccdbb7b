//! The command that the words after the program's name ask for, read with `clap`.
#![tactic(auto)]

mod command;
mod laws;
mod matches;
mod numbers;
mod program;

pub use command::{Command, Files, Selection};
pub use laws::{stated_words_are_taken, taken_words_are_a_command};
pub use matches::command_of;
