//! The texts of logs and of rows.

use crate::grammar::Grammar;
use crate::notice::Notice;
use crate::role::Role;
use paving_log::{Log, read_log, read_rows};
use std::alloc::Global;
use std::rc::Rc;

/// The texts of logs.
#[derive(Clone, Copy)]
pub struct LogText;

impl Grammar<Log> for LogText {
    ghost use Rattle.input_files.specs.Logs.{log_text};

    ghost text = { λ _. log_text };

    fn role(&self) -> Role {
        Role::Log
    }

    fn read(&self, alloc: Global, bytes: Vec<u8>) -> Result<Log, Notice> {
        let Ok(text) = Rc::new(alloc, bytes) else {
            return Err(Notice::NoMemory);
        };
        match read_log(alloc, &text) {
            Ok(log) => Ok(log),
            Err(error) => Err(Notice::of_text(Role::Log, error)),
        }
    }
}

/// The texts of rows.
#[derive(Clone, Copy)]
pub struct RowsText;

impl Grammar<Log> for RowsText {
    ghost use Rattle.input_files.specs.Logs.{rows_text};

    ghost text = { λ _. rows_text };

    fn role(&self) -> Role {
        Role::Rows
    }

    fn read(&self, alloc: Global, bytes: Vec<u8>) -> Result<Log, Notice> {
        let Ok(text) = Rc::new(alloc, bytes) else {
            return Err(Notice::NoMemory);
        };
        match read_rows(alloc, &text) {
            Ok(rows) => Ok(rows),
            Err(error) => Err(Notice::of_text(Role::Rows, error)),
        }
    }
}
