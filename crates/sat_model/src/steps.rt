//! The steps of a paving.

/// One step. Boxes have numbers: the root is 0, and each split gives the next two.
#[derive(Clone, Copy, Debug, PartialEq, Eq)]
pub enum Step {
    /// The slab beyond `bound` at a face holds no fitting point: faces are 0 and 1 for the low
    /// and high face of x, 2 and 3 for y, 4 and 5 for z.
    Cut {
        id: u32,
        face: u8,
        bound: i64,
    },
    /// The box is split in halves on an axis: 0 for x, 1 for y, 2 for z.
    Split {
        id: u32,
        axis: u8,
    },
    /// No point of the box fits.
    Outside {
        id: u32,
    },
    /// Each point of the box fits at `clock`. Offsets that fit lie from `lo` to `hi`.
    Inside {
        id: u32,
        clock: i64,
        lo: i64,
        hi: i64,
    },
    /// Undecided. Offsets that fit lie from `lo` to `hi`.
    Edge {
        id: u32,
        lo: i64,
        hi: i64,
    },
}
