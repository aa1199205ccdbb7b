//! A case: rows, a box, and a bound with its sums.

use crate::rows::{box_at, row_at};
use arrayvec::ArrayVec;
use bound_directions::Direction;
use bound_lines::{BoundHead, bound_at, sum_at};
use bound_search::find_bound;
use grid_model::Box3;
use log_tokens::{Rest, amount, count, is_ended, word};
use row_sums::shows_half_space;
use sat_model::{Row, RowSum};
use std::alloc::Global;

/// An epoch has as many rows at most.
const MOST_ROWS: usize = 64;
/// The greatest amount of a direction's component.
const GREATEST_COMPONENT: u64 = 1_000_000;
/// The greatest amount of the end of a half-space that is looked for.
const GREATEST_END: u64 = 9_000_000_000_000_000_000;

/// What the lines so far say.
#[derive(Drop)]
pub struct Case {
    rows: Vec<Row>,
    part: Option<Box3>,
    outliers: u8,
    head: Option<BoundHead>,
    sums: ArrayVec<RowSum, 64>,
}

/// A direction, and from where to where the half-space that is found along it may end.
#[derive(Clone, Copy)]
struct Target {
    direction: Direction,
    least: i64,
    most: i64,
}

impl Case {
    pub fn new(alloc: Global) -> Case {
        Case {
            rows: Vec::new(alloc),
            part: None,
            outliers: 0,
            head: None,
            sums: ArrayVec::new(),
        }
    }

    /// Takes a line, and gives what is answered to it, if it is. None where it isn't a line of a case,
    /// or memory is short.
    pub fn take(&mut self, line: &[u8]) -> Option<Option<&'static str>> {
        let (first, rest) = word(Some(line))?;
        match first {
            b"rows" => self.rows.clear(),
            b"sat" => self.rows.push(row_at(line)?).ok()?,
            b"root" => self.part = Some(box_at(line)?),
            b"outliers" => self.outliers = outliers(rest)?,
            b"bound" => self.begin(bound_at(line)?),
            b"by" => return self.take_sum(line),
            b"seek" => return Some(Some(self.sought(&target_of(rest)?)?)),
            _ => return None,
        }
        Some(None)
    }

    /// Begins a bound.
    fn begin(&mut self, head: BoundHead) {
        self.head = Some(head);
        self.sums.clear();
    }

    /// Takes a sum. The last one of a bound is answered.
    fn take_sum(&mut self, line: &[u8]) -> Option<Option<&'static str>> {
        let head = self.head?;
        self.sums.try_push(sum_at(line)?).ok()?;
        if self.sums.len() < usize::from(head.sums) {
            return Some(None);
        }
        self.head = None;
        let part = self.part?;
        if self.rows.len() > MOST_ROWS {
            return None;
        }
        if shows_half_space(&self.rows, &part, self.outliers, &head.half, &self.sums) {
            Some(Some("shown"))
        } else {
            Some(Some("not shown"))
        }
    }

    /// Where the half-space that is found along a direction ends.
    fn sought(&self, target: &Target) -> Option<&'static str> {
        let part = self.part?;
        if self.rows.len() > MOST_ROWS {
            return None;
        }
        let Some(bound) = find_bound(&self.rows, &part, self.outliers, &target.direction) else {
            return Some("none");
        };
        if bound.half.most < target.least {
            Some("before")
        } else if bound.half.most > target.most {
            Some("behind")
        } else {
            Some("within")
        }
    }
}

/// How many rows are left out.
fn outliers(rest: Rest<'_>) -> Option<u8> {
    let (outliers, rest) = count(rest, 0, 255)?;
    if is_ended(rest) {
        Some(outliers as u8)
    } else {
        None
    }
}

/// What is sought.
fn target_of(rest: Rest<'_>) -> Option<Target> {
    let (x, rest) = amount(rest, GREATEST_COMPONENT)?;
    let (y, rest) = amount(rest, GREATEST_COMPONENT)?;
    let (z, rest) = amount(rest, GREATEST_COMPONENT)?;
    let (least, rest) = amount(rest, GREATEST_END)?;
    let (most, rest) = amount(rest, GREATEST_END)?;
    if !is_ended(rest) {
        return None;
    }
    Some(Target {
        direction: Direction { x, y, z },
        least,
        most,
    })
}
