//! Rows that were renewed.

ghost use Rattle.std.specs.Prelude.{◌≡◌, ◌≤◌, length};
ghost use Rattle.grid_model.specs.Boxes.{grid_box};

use grid_model::Box3;
use sat_model::{Row, Sat, Span};

/// A row that fills a place where none is.
pub(crate) fn no_row() -> Row {
    let zero = Span { lo: 0, hi: 0 };
    Row {
        sat: Sat {
            system: b'G',
            number: 1,
        },
        x: zero,
        y: zero,
        z: zero,
        range: zero,
        err: zero,
        sure_lo: 0,
        sure_hi: 0,
    }
}

/// Rows that were renewed, as many as are counted, and the box over which they hold.
#[derive(Clone, Copy)]
pub(crate) struct NewRows {
    pub part: Box3,
    pub rows: [Row; 64],
    pub count: usize,
    pub ghost few: { count ≤ 64 },
}

impl NewRows {
    ghost use Rattle.sat_model.specs.Events.{rows_over};
    ghost use Rattle.log_writer.specs.InUse.{rows_value};

    /// A copy of rows, of all of them where there are at most 64.
    pub fn copied(part: &Box3, rows: &[Row]) -> NewRows
        ensures { length rows.now ≤ 64
            → rows_value result ≡ rows_over (grid_box part.now) rows.now }
    {
        let count = rows.len().min(64);
        let mut own = [no_row(); 64];
        for i in 0..count {
            own[i] = rows[i];
        }
        NewRows {
            part: *part,
            rows: own,
            count,
        }
    }

    /// The rows.
    pub fn as_slice(&self) -> &[Row]
        ensures value { result.now ≡ (rows_value self.now).rows }
        ensures few { length result.now ≤ 64 }
    {
        &self.rows[..self.count]
    }
}
