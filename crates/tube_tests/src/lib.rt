//! Tests alone: roots and hulls of a moving receiver, and zones.
#![tactic(auto)]

#[cfg(test)]
mod tubes;
#[cfg(test)]
mod zones;
