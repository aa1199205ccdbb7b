//! A sum of rows' forms.

ghost use Rattle.std.specs.Prelude.{◌≤◌, ◌*◌};
ghost use Rattle.grid_model.specs.Sizes.{IsWithin};

/// A sum of the forms of up to five rows: the multipliers' sum times S b, and the slopes x, y and z
/// times the point's way from the middle of the box, are together at most `most`, in um of 1 / S.
#[derive(Clone, Copy)]
pub(crate) struct FormSum {
    pub count: u8,
    pub multipliers: i64,
    pub x: i64,
    pub y: i64,
    pub z: i64,
    pub most: i128,
    pub ghost count_low: { count ≤ 5 },
    pub ghost multipliers_within: { IsWithin (count * 1048576) multipliers },
    pub ghost x_within: { IsWithin (count * 4398046511104) x },
    pub ghost y_within: { IsWithin (count * 4398046511104) y },
    pub ghost z_within: { IsWithin (count * 4398046511104) z },
    pub ghost most_within: { IsWithin (count * 1048576000000000000000000000000000000) most },
}
