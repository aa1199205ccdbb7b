//! Tests alone: the pool of boxes, the contractor, and the steps of one box.
#![tactic(auto)]

#[cfg(test)]
mod boxes;
#[cfg(test)]
mod contractor;
#[cfg(test)]
mod pool;
