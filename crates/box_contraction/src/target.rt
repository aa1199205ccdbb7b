//! Where faces of a box may be moved to.

ghost use Rattle.std.specs.Prelude.{◌≡◌};
ghost use Rattle.grid_model.specs.Boxes.{grid_box};
ghost use Rattle.sat_model.specs.Fold.{axis_of, is_low};
ghost use Rattle.sat_model.specs.TightFaces.{face_at};
ghost use Rattle.box_contraction.specs.Cuts.{eighths};

use grid_model::Box3;

/// Where each face of a box may be moved to.
#[derive(Clone, Copy, Debug, PartialEq, Eq)]
pub enum Target {
    /// To that face of a box that was proposed.
    Proposal(Box3),
    /// Past an eighth of the grid points of the side, rounded down.
    Eighths,
}

impl Target {
    ghost use Rattle.box_contraction.specs.Cuts.{eighths};
    ghost use Rattle.box_contraction.specs.Targets.{bounds_of};

    /// Where a face of the box may be moved to, in um.
    pub fn bound(&self, face: u8, part: &Box3) -> i64
        ensures { result ≡ bounds_of self.now face (grid_box part.now) }
    {
        match self {
            Target::Proposal(proposed) => face_of(proposed, face),
            Target::Eighths => past_eighth(part, face),
        }
    }
}

/// The coordinate of a face.
fn face_of(part: &Box3, face: u8) -> i64
    ensures { result ≡ face_at (axis_of face) (is_low face) (grid_box part.now) }
{
    let (lo, hi) = part.side(face / 2);
    if face % 2 == 0 { lo } else { hi }
}

/// The coordinate past an eighth of the points of the side, counted from the face.
fn past_eighth(part: &Box3, face: u8) -> i64
    ensures { result ≡ eighths face (grid_box part.now) }
{
    let eighth = ((part.length_on(face / 2) + 1) / 8) as i64;
    let (lo, hi) = part.side(face / 2);
    if face % 2 == 0 {
        lo + eighth
    } else {
        hi - eighth
    }
}
