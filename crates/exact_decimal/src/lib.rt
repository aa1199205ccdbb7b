//! The numbers of RINEX fields as exact decimals, and their floors and ceilings in whole units.
#![tactic(auto)]

mod between;
mod convert;
mod count;
mod decimal;
mod parts;
mod read;
mod unit;
mod usual;

pub use between::to_unit_between;
pub use convert::to_unit;
pub use count::read_count;
pub use decimal::{BadNumber, Decimal};
pub use read::{read_exp, read_fixed};
pub use unit::{Range, Unit};
