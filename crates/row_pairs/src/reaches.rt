//! How far pairs of rows reach into a box from its faces: a guess of where slabs are empty.
//!
//! Numbers wrap around where a box or a form is too large for them. What comes of that is a bad
//! guess, and each guess is tested.

ghost use Rattle.std.specs.Prelude.{◌<◌, length};

use crate::forms::Form;
use arrayvec::ArrayVec;
use grid_model::Box3;

/// A slab at a face of a box in which a pair of rows conflicts.
#[derive(Clone, Copy)]
pub(crate) struct Reach {
    /// The bit of each of the two rows.
    pub first: u64,
    pub second: u64,
    /// From 0 to 5, or none where the two conflict all over the box.
    pub face: Option<u8>,
    /// How deep the slab is, in the unit of the sides.
    pub depth: u64,
}

impl Default for Reach {
    fn default() -> Self {
        Reach {
            first: 0,
            second: 0,
            face: None,
            depth: 0,
        }
    }
}

/// The sides of a box in a unit in which products with slopes suit 64 bits.
#[derive(Clone, Copy)]
pub(crate) struct Sides {
    pub lengths: [u64; 3],
    /// In um.
    pub unit: u64,
}

impl Sides {
    /// The difference of two forms' bounds in this unit, or the greatest number where it is larger.
    fn narrowed(&self, gap: i128) -> i64 {
        let gap = if self.unit == 1 { gap } else { gap / 128 };
        match i64::try_from(gap) {
            Ok(gap) => gap,
            Err(_) => i64::MAX,
        }
    }
}

/// A side longer than this is measured in units of 128 um.
const LONG: u64 = 274_877_906_944;

/// The sides of the box.
pub(crate) fn sides_of(part: &Box3) -> Sides {
    let x = part.length_on(0);
    let y = part.length_on(1);
    let z = part.length_on(2);
    if x <= LONG && y <= LONG && z <= LONG {
        Sides {
            lengths: [x, y, z],
            unit: 1,
        }
    } else {
        Sides {
            lengths: [x / 128, y / 128, z / 128],
            unit: 128,
        }
    }
}

/// By what the linear function of one row's form is above that of another.
#[derive(Clone, Copy)]
struct Lead {
    first: u64,
    second: u64,
    slopes: [i64; 3],
    /// How much it differs over the box, axis by axis.
    across: [u64; 3],
}

/// The lead of one row over another.
fn lead_of(f: &Form, first: u64, g: &Form, second: u64, sides: &Sides) -> Lead {
    let x = f.x - g.x;
    let y = f.y - g.y;
    let z = f.z - g.z;
    let [along_x, along_y, along_z] = sides.lengths;
    Lead {
        first,
        second,
        slopes: [x, y, z],
        across: [
            x.unsigned_abs().wrapping_mul(along_x),
            y.unsigned_abs().wrapping_mul(along_y),
            z.unsigned_abs().wrapping_mul(along_z),
        ],
    }
}

/// The reaches that are kept of a box. More are seldom there, and room for them takes long to clear.
pub(crate) type Reaches = ArrayVec<Reach, 60>;

/// How far the pairs of these forms around a box reach into it, from each face from which it is an
/// eighth of the side or more.
pub(crate) fn reaches_of(forms: &[Form], sides: &Sides) -> Reaches {
    let mut reaches = ArrayVec::new();
    let mut bit = 1;
    for row in 0..forms.len() {
        add_row(&mut reaches, forms, row, bit, sides);
        bit = bit.wrapping_mul(2);
    }
    reaches
}

/// Adds the reaches of a row and each before it.
fn add_row(reaches: &mut Reaches, forms: &[Form], row: usize, bit: u64, sides: &Sides)
    requires { row < length forms.now }
{
    let mut first = 1;
    for other in 0..row {
        add_pair(reaches, &forms[other], first, &forms[row], bit, sides);
        first = first.wrapping_mul(2);
    }
}

/// Adds the reaches of two rows: of the first where it is below the other, and of it turned.
fn add_pair(reaches: &mut Reaches, f: &Form, first: u64, g: &Form, second: u64, sides: &Sides) {
    let lead = lead_of(f, first, g, second, sides);
    let [x, y, z] = lead.across;
    let half = (x.wrapping_add(y).wrapping_add(z) / 2) as i64;
    let longest = x.max(y).max(z);
    let most = ((longest - longest / 8) / 2) as i64;
    let below = sides.narrowed(f.upper - g.lower).saturating_add(half);
    if below / 2 <= most {
        add_faces(reaches, sides, &lead, below, false);
    }
    let above = sides.narrowed(g.upper - f.lower).saturating_add(half);
    if above / 2 <= most {
        add_faces(reaches, sides, &lead, above, true);
    }
}

/// Adds the reaches of a row that is below another where it leads it by more than this gap, counted
/// from where it leads it least; `turned` where it is the other that leads.
fn add_faces(reaches: &mut Reaches, sides: &Sides, lead: &Lead, gap: i64, turned: bool) {
    if gap < 0 {
        let reach = Reach {
            first: lead.first,
            second: lead.second,
            face: None,
            depth: u64::MAX,
        };
        add(reaches, reach);
        return;
    }
    for axis in 0..3_u8 {
        add_face(reaches, sides, lead, gap as u64, axis, turned);
    }
}

/// Adds the reach from the face of an axis from which it is an eighth of the side or more: the slab
/// ends where the others' ways leave too little of the lead.
fn add_face(reaches: &mut Reaches, sides: &Sides, lead: &Lead, gap: u64, axis: u8, turned: bool)
    requires { axis < 3 }
{
    let slope = lead.slopes[usize::from(axis)];
    let across = lead.across[usize::from(axis)];
    let steep = slope.unsigned_abs();
    if steep == 0 || gap >= across - across / 8 {
        return;
    }
    let length = sides.lengths[usize::from(axis)];
    let is_low = (slope < 0) != turned;
    let face = if is_low { 2 * axis } else { 2 * axis + 1 };
    let reach = Reach {
        first: lead.first,
        second: lead.second,
        face: Some(face),
        depth: length.wrapping_sub(gap / steep).wrapping_sub(1),
    };
    add(reaches, reach);
}

/// Adds a reach where there is room.
fn add(reaches: &mut Reaches, reach: Reach) {
    if reaches.len() < 60 {
        reaches.push(reach);
    }
}
