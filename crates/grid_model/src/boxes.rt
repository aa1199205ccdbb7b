//! Points and boxes of the grid of 1 um in the earth-fixed frame.

ghost use Rattle.std.specs.Prelude.{◌≡◌, ◌≤◌, ◌<ℤ◌, ◌≤ℤ◌};
ghost use Rattle.grid_model.specs.Sizes.{IsBoxSize};

/// A point of the grid, in um.
#[derive(Clone, Copy, Debug, PartialEq, Eq)]
pub struct Pos {
    pub x: i64,
    pub y: i64,
    pub z: i64,
}

/// The grid points from `lo` to `hi` on each axis, each within 10^13 um of the origin.
#[derive(Clone, Copy, Debug, PartialEq, Eq)]
pub struct Box3 {
    pub lo: Pos,
    pub hi: Pos,
    pub ghost x_ordered: { lo.x ≤ℤ hi.x },
    pub ghost y_ordered: { lo.y ≤ℤ hi.y },
    pub ghost z_ordered: { lo.z ≤ℤ hi.z },
    pub ghost lo_within: { IsBoxSize lo.x × IsBoxSize lo.y × IsBoxSize lo.z },
    pub ghost hi_within: { IsBoxSize hi.x × IsBoxSize hi.y × IsBoxSize hi.z },
}

impl Box3 {
    ghost use Rattle.grid_model.specs.Boxes.{grid_box, side_at, with_side, low_half, high_half};
    ghost use Rattle.grid_model.specs.Boxes.{middle};
    ghost use Rattle.grid_model.specs.Lengths.{side_length, longest_length, IsLongestAxis};

    /// The ends of the side on an axis: 0 for x, 1 for y, and z for each other number.
    pub fn side(&self, axis: u8) -> (i64, i64)
        ensures lo { result.0 ≡ (side_at axis (grid_box self.now)).lo }
        ensures hi { result.1 ≡ (side_at axis (grid_box self.now)).hi }
        ensures ordered { result.0 ≤ℤ result.1 }
        ensures lo_within { IsBoxSize result.0 }
        ensures hi_within { IsBoxSize result.1 }
    {
        match axis {
            0 => (self.lo.x, self.hi.x),
            1 => (self.lo.y, self.hi.y),
            _ => (self.lo.z, self.hi.z),
        }
    }

    /// The length of the side on an axis, in um.
    pub fn length_on(&self, axis: u8) -> u64
        ensures value { result ≡ side_length (side_at axis (grid_box self.now)) }
        ensures bound { result ≤ 20000000000000 }
    {
        let (lo, hi) = self.side(axis);
        (hi - lo) as u64
    }

    /// The first axis with the longest side, and the length of that side in um.
    pub fn longest_axis(&self) -> (u8, u64)
        ensures axis { IsLongestAxis (grid_box self.now) result.0 }
        ensures length { result.1 ≡ longest_length (grid_box self.now) }
        ensures bound { result.1 ≤ 20000000000000 }
    {
        let x = self.length_on(0);
        let y = self.length_on(1);
        let z = self.length_on(2);
        if y <= x && z <= x {
            (0, x)
        } else if z <= y {
            (1, y)
        } else {
            (2, z)
        }
    }

    /// The part with coordinates of at most `hi` on the axis.
    pub fn up_to(&self, axis: u8, hi: i64) -> Box3
        requires low { (side_at axis (grid_box self.now)).lo ≤ℤ hi }
        requires high { hi ≤ℤ (side_at axis (grid_box self.now)).hi }
        ensures { grid_box result ≡ with_side axis (grid_box self.now)
            (record { lo = (side_at axis (grid_box self.now)).lo; hi = hi }) }
    {
        let mut part = *self;
        match axis {
            0 => part.hi.x = hi,
            1 => part.hi.y = hi,
            _ => part.hi.z = hi,
        }
        part
    }

    /// The part with coordinates of at least `lo` on the axis.
    pub fn from_on(&self, axis: u8, lo: i64) -> Box3
        requires low { (side_at axis (grid_box self.now)).lo ≤ℤ lo }
        requires high { lo ≤ℤ (side_at axis (grid_box self.now)).hi }
        ensures { grid_box result ≡ with_side axis (grid_box self.now)
            (record { lo = lo; hi = (side_at axis (grid_box self.now)).hi }) }
    {
        let mut part = *self;
        match axis {
            0 => part.lo.x = lo,
            1 => part.lo.y = lo,
            _ => part.lo.z = lo,
        }
        part
    }

    /// The two halves on an axis, the lower first. The middle belongs to the lower.
    pub fn halves(&self, axis: u8) -> (Box3, Box3)
        requires { (side_at axis (grid_box self.now)).lo <ℤ (side_at axis (grid_box self.now)).hi }
        ensures low { grid_box result.0 ≡ with_side axis (grid_box self.now)
            (low_half (side_at axis (grid_box self.now))) }
        ensures high { grid_box result.1 ≡ with_side axis (grid_box self.now)
            (high_half (side_at axis (grid_box self.now))) }
    {
        let (lo, hi) = self.side(axis);
        let middle = Box3::middle_of(lo, hi);
        (self.up_to(axis, middle), self.from_on(axis, middle + 1))
    }

    /// The middle of two ends, rounded down.
    fn middle_of(lo: i64, hi: i64) -> i64
        requires ordered { lo ≤ℤ hi }
        requires lo_within { IsBoxSize lo }
        requires hi_within { IsBoxSize hi }
        ensures value { result ≡ middle (record { lo = lo; hi = hi }) }
        ensures between { (lo ≤ℤ result) × (result ≤ℤ hi) }
        ensures below { lo <ℤ hi → result <ℤ hi }
    {
        lo + (hi - lo) / 2
    }
}
