//! The numbers of a total.

/// How many lines `in`, `edge` and `out` the report of an epoch has, and how many splits were made.
#[derive(Clone, Copy, Debug, Default, PartialEq, Eq)]
pub struct Counts4 {
    pub inside: u32,
    pub edge: u32,
    pub outside: u32,
    pub bisections: u32,
}
