//! Contracted boxes.

ghost use Rattle.std.specs.Prelude.{◌≡◌, ◌<◌, ◌≤◌, pos, ◌≤ℤ◌, length, IfOk};
ghost use Rattle.grid_model.specs.Sizes.{IsBoxSize, IsErrorSize, IsPlaceSize};
ghost use Rattle.sat_model.specs.Trees.{IsWellFormed};
ghost use Rattle.range_contractor.specs.Views.{tree_value};

use fix_interval::{Coarse, Exact, Interval};
use gnss_model::Sat;
use grid_model::{Box3, NoMemory, Pos, Span};
use range_contractor::{Leaf, Tree, contract, refresh, relaxed_tree};
use sat_model::Row;
use std::alloc::Global;

/// The distance of the satellites from the origin, in um.
const FAR: i64 = 20_000_000_000_000;

const ZERO: Span = Span { lo: 0, hi: 0 };

/// The box of these x, with y and z up to `half` in amount.
fn slab(lo: i64, hi: i64, half: i64) -> Box3
    requires ordered { (lo ≤ℤ hi) × (pos 0 ≤ℤ half) }
    requires sizes { IsBoxSize lo × IsBoxSize hi × IsBoxSize half }
{
    Box3 {
        lo: Pos {
            x: lo,
            y: -half,
            z: -half,
        },
        hi: Pos {
            x: hi,
            y: half,
            z: half,
        },
    }
}

/// The span of one number.
fn only(number: i64) -> Span
    ensures lo { result.lo ≡ number }
    ensures hi { result.hi ≡ number }
{
    Span {
        lo: number,
        hi: number,
    }
}

/// The row of a satellite at this place, whose range is its distance from the origin.
fn row(number: u8, place: Pos, err: Span) -> Row
    requires place { IsPlaceSize place.x × IsPlaceSize place.y × IsPlaceSize place.z }
    requires err { IsErrorSize err.lo × IsErrorSize err.hi }
{
    Row {
        sat: Sat {
            system: b'G',
            number,
        },
        x: only(place.x),
        y: only(place.y),
        z: only(place.z),
        range: only(FAR),
        err,
        sure_lo: err.lo,
        sure_hi: err.hi,
    }
}

/// The tree of the points that two boxes share.
fn shared<I: Interval>(alloc: Global, one: Box3, other: Box3) -> Result<Tree<I>, NoMemory>
    ensures { IfOk result (λ t. IsWellFormed (tree_value I.low I.high t)) }
{
    let mut kids = Vec::new(alloc);
    kids.push(Tree::Within(one))?;
    kids.push(Tree::Within(other))?;
    Ok(Tree::All(kids))
}

/// The tree of rows, made anew for as many others.
fn anew<I: Interval>(
    alloc: Global,
    before: &[Row],
    rows: &[Row],
    q: u8,
) -> Result<Tree<I>, NoMemory>
    requires many { (q < length rows.now) × (length rows.now ≤ 64) }
    requires same { length before.now ≡ length rows.now }
    ensures { IfOk result (λ t. IsWellFormed (tree_value I.low I.high t)) }
{
    let mut tree = relaxed_tree(alloc, before, q)?;
    refresh(&mut tree, rows);
    Ok(tree)
}

const HALF_METRE: Span = Span {
    lo: -500_000,
    hi: 500_000,
};

const FIVE_METRES: Span = Span {
    lo: -5_000_000,
    hi: 5_000_000,
};

const FIFTY_METRES: Span = Span {
    lo: -50_000_000,
    hi: 50_000_000,
};

const ON_X: Pos = Pos { x: FAR, y: 0, z: 0 };

const ON_Y: Pos = Pos { x: 0, y: FAR, z: 0 };

const ON_Z: Pos = Pos { x: 0, y: 0, z: FAR };

const BETWEEN: Pos = Pos {
    x: 12_000_000_000_000,
    y: 16_000_000_000_000,
    z: 0,
};

const BEYOND: Pos = Pos {
    x: 20_010_000_000_000,
    y: 0,
    z: 0,
};

const OPPOSITE: Pos = Pos {
    x: -FAR,
    y: 0,
    z: 0,
};

/// Rows that all fit the box of 2 m at the origin.
fn right_rows() -> [Row; 4]
    ensures { length result ≡ 4 }
{
    [
        row(1, ON_X, HALF_METRE),
        row(2, ON_Y, HALF_METRE),
        row(3, ON_Z, HALF_METRE),
        row(4, BETWEEN, HALF_METRE),
    ]
}

/// The same, but the first satellite is 10 km farther away than its range says.
fn one_wrong_row() -> [Row; 4]
    ensures { length result ≡ 4 }
{
    [
        row(1, BEYOND, HALF_METRE),
        row(2, ON_Y, HALF_METRE),
        row(3, ON_Z, HALF_METRE),
        row(4, BETWEEN, HALF_METRE),
    ]
}

/// Two satellites on both sides of the x axis, with small errors, and two with large ones.
fn two_on_x() -> [Row; 4]
    ensures { length result ≡ 4 }
{
    [
        row(1, ON_X, FIVE_METRES),
        row(2, ON_Y, FIFTY_METRES),
        row(3, ON_Z, FIFTY_METRES),
        row(5, OPPOSITE, FIVE_METRES),
    ]
}

/// What the tree of rows leaves of a box.
fn contracted<I: Interval>(
    alloc: Global,
    rows: &[Row],
    q: u8,
    part: &Box3,
    clock: Span,
) -> Result<Option<Box3>, NoMemory>
    requires { (q < length rows.now) × (length rows.now ≤ 64) }
{
    let tree: Tree<I> = relaxed_tree(alloc, rows, q)?;
    Ok(contract(&tree, part, clock))
}

/// What a tree that was made anew for these rows leaves of a box.
fn contracted_anew<I: Interval>(
    alloc: Global,
    before: &[Row],
    rows: &[Row],
    q: u8,
    part: &Box3,
    clock: Span,
) -> Result<Option<Box3>, NoMemory>
    requires many { (q < length rows.now) × (length rows.now ≤ 64) }
    requires same { length before.now ≡ length rows.now }
{
    let tree: Tree<I> = anew(alloc, before, rows, q)?;
    Ok(contract(&tree, part, clock))
}

/// What an exact row of the satellite on the x axis leaves of a box.
fn contracted_exactly(part: &Box3) -> Option<Box3> {
    let leaf: Leaf<Exact> = Leaf {
        x: Interval::of(FAR, FAR),
        y: Interval::of(0, 0),
        z: Interval::of(0, 0),
        range: Span { lo: FAR, hi: FAR },
        err: ZERO,
    };
    contract(&Tree::Sat(leaf), part, ZERO)
}

/// What a coarse row of the same satellite leaves.
fn contracted_coarsely(part: &Box3) -> Option<Box3> {
    let leaf: Leaf<Coarse> = Leaf {
        x: Interval::of(FAR, FAR),
        y: Interval::of(0, 0),
        z: Interval::of(0, 0),
        range: Span { lo: FAR, hi: FAR },
        err: ZERO,
    };
    contract(&Tree::Sat(leaf), part, ZERO)
}

/// The ends of the coarse place of that satellite on x.
fn coarse_ends() -> (i64, i64) {
    let x: Coarse = Interval::of(FAR, FAR);
    (x.lo(), x.hi())
}

/// Whether the number is one of those from the low end to the high one.
fn is_between(number: i64, lo: i64, hi: i64) -> bool {
    lo <= number && number <= hi
}

/// What is left of a number behind whole grains of coarse intervals, with its sign.
fn behind_grains(number: i64) -> i64 {
    number % 65_536
}

#[test]
fn a_box_alone(rt: HostRuntime) {
    let exact: Tree<Exact> = Tree::Within(slab(-5, 5, 5));
    let coarse: Tree<Coarse> = Tree::Within(slab(-5, 5, 5));
    let apart = slab(6, 9, 9);
    assert!(rt; contract(&exact, &apart, ZERO) == None, "apart");
    assert!(rt; contract(&coarse, &apart, ZERO) == None, "apart");
    let near = slab(5, 9, 9);
    let met = Some(slab(5, 5, 5));
    assert!(rt; contract(&exact, &near, ZERO) == met, "the meet");
    assert!(rt; contract(&coarse, &near, ZERO) == met, "the meet");
}

#[test]
fn one_satellite_leaves_up_to_16_um_exactly(rt: HostRuntime) {
    let part = slab(-100_000_000, 100_000_000, 0);
    let Some(kept) = contracted_exactly(&part) else {
        return assert!(rt; false, "something is left");
    };
    assert!(rt; is_between(kept.lo.x, -16, 0), "the low face");
    assert!(rt; is_between(kept.hi.x, 0, 16), "the high face");
}

#[test]
fn one_satellite_leaves_multiples_of_the_grain_coarsely(rt: HostRuntime) {
    let part = slab(-100_000_000, 100_000_000, 0);
    let (low, high) = coarse_ends();
    assert_eq!(rt; low, 19_999_999_983_616, "the low end of x");
    assert_eq!(rt; high, 20_000_000_049_152, "the high end of x");
    let Some(kept) = contracted_coarsely(&part) else {
        return assert!(rt; false, "something is left");
    };
    assert!(rt; is_between(kept.lo.x, -1_048_576, -65_536), "the low face");
    assert!(rt; is_between(kept.hi.x, 65_536, 1_048_576), "the high face");
    assert_eq!(rt; behind_grains(kept.lo.x), 0, "a multiple below");
    assert_eq!(rt; behind_grains(kept.hi.x), 0, "a multiple above");
}

#[test]
fn four_rows(rt: HostRuntime) {
    let rows = right_rows();
    let root = slab(-1_000_000, 1_000_000, 900_000);
    let clock = Span {
        lo: -1_400_000,
        hi: 1_400_000,
    };
    assert!(rt;
        contracted::<Exact>(rt.alloc(), &rows, 0, &root, clock) == Ok(Some(root)),
        "the box itself"
    );
    assert!(rt;
        contracted::<Coarse>(rt.alloc(), &rows, 0, &root, clock) == Ok(Some(root)),
        "the box itself"
    );
}

#[test]
fn one_wrong_satellite(rt: HostRuntime) {
    let rows = one_wrong_row();
    let part = slab(-1_000_000, 1_000_000, 900_000);
    let clock = Span {
        lo: -1_400_000,
        hi: 1_400_000,
    };
    assert!(rt;
        contracted::<Exact>(rt.alloc(), &rows, 0, &part, clock) == Ok(None),
        "no point by all"
    );
    assert!(rt;
        contracted::<Exact>(rt.alloc(), &rows, 1, &part, clock) == Ok(Some(part)),
        "all points by three"
    );
}

#[test]
fn a_tree_made_anew_for_other_rows(rt: HostRuntime) {
    let right = right_rows();
    let wrong = one_wrong_row();
    let part = slab(-1_000_000, 1_000_000, 900_000);
    let clock = Span {
        lo: -1_400_000,
        hi: 1_400_000,
    };
    assert!(rt;
        contracted_anew::<Exact>(rt.alloc(), &right, &wrong, 0, &part, clock) == Ok(None),
        "no point by all"
    );
    assert!(rt;
        contracted_anew::<Exact>(rt.alloc(), &wrong, &right, 0, &part, clock) == Ok(Some(part)),
        "all points"
    );
    assert!(rt;
        contracted_anew::<Coarse>(rt.alloc(), &wrong, &right, 0, &part, clock) == Ok(Some(part)),
        "all points"
    );
    assert!(rt;
        contracted_anew::<Exact>(rt.alloc(), &right, &wrong, 1, &part, clock) == Ok(Some(part)),
        "all points by three"
    );
}

#[test]
fn opposite_satellites(rt: HostRuntime) {
    // The ranges to the two on the axis fit everywhere with some offset, so no face moves.
    let rows = two_on_x();
    let root = slab(-8_000_000, 8_000_000, 1_000_000);
    let clock = Span {
        lo: -13_000_000,
        hi: 13_000_000,
    };
    assert!(rt;
        contracted::<Exact>(rt.alloc(), &rows, 0, &root, clock) == Ok(Some(root)),
        "the box itself"
    );
    assert!(rt;
        contracted::<Coarse>(rt.alloc(), &rows, 0, &root, clock) == Ok(Some(root)),
        "the box itself"
    );
    // With a known offset the two leave what is within 5 m of the middle.
    let Ok(Some(kept)) = contracted::<Exact>(rt.alloc(), &rows, 0, &root, ZERO) else {
        return assert!(rt; false, "something is left");
    };
    assert!(rt;
        is_between(kept.lo.x, -5_000_016, -5_000_000),
        "the low face"
    );
    assert!(rt;
        is_between(kept.hi.x, 5_000_000, 5_000_016),
        "the high face"
    );
}

#[test]
fn one_after_the_other(rt: HostRuntime) {
    let part = slab(0, 9, 9);
    let left = slab(0, 5, 9);
    let middle = slab(3, 6, 9);
    let right = slab(6, 9, 9);
    let exact: Tree<Exact> = shared(rt.alloc(), left, middle).expect(&rt, "memory");
    assert!(rt;
        contract(&exact, &part, ZERO) == Some(slab(3, 5, 9)),
        "both"
    );
    let coarse: Tree<Coarse> = shared(rt.alloc(), left, right).expect(&rt, "memory");
    assert!(rt; contract(&coarse, &part, ZERO) == None, "no point in both");
}
