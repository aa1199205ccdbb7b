//! Tests alone: the tests of a box, the pool of boxes, the paving of small boxes and the judge of
//! its steps.
#![tactic(auto)]

#[cfg(test)]
mod judging;
#[cfg(test)]
mod logged;
#[cfg(test)]
mod meet;
#[cfg(test)]
mod pairs;
#[cfg(test)]
mod pavings;
#[cfg(test)]
mod pool;
#[cfg(test)]
mod small_rows;
#[cfg(test)]
mod step_list;
