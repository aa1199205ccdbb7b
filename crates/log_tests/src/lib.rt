//! Tests alone: the words of a log, its text and what it says, its report, how both are written,
//! the rows that it begins with, and the laws of what a paving leaves undone.
#![tactic(auto)]

#[cfg(test)]
mod bounded;
#[cfg(test)]
mod bounds;
#[cfg(test)]
mod logs;
#[cfg(test)]
mod renewed;
#[cfg(test)]
mod report;
#[cfg(test)]
mod rows;
#[cfg(test)]
mod sharpness;
#[cfg(test)]
mod words;
#[cfg(test)]
mod writing;
