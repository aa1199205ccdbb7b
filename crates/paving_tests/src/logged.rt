//! Steps that are kept as lines of a text come out as they were put in.

use sat_model::Step;
use std::test::Fail;
use step_lines::LoggedSteps;

const OUT: Step = Step::Outside { id: 2 };

const INSIDE: Step = Step::Inside {
    id: 1,
    clock: -7,
    lo: -9,
    hi: 200_000_000_000_000,
};

const AGAIN: Step = Step::Cut {
    id: 4,
    face: 1,
    bound: 2,
};

static CASES: [&[Step]; 7] = [
    &[],
    &[Step::Edge {
        id: 0,
        lo: 1,
        hi: 2,
    }],
    // Cuts behind any step of their box.
    &[
        Step::Split { id: 0, axis: 0 },
        Step::Cut {
            id: 0,
            face: 5,
            bound: -1,
        },
        Step::Cut {
            id: 0,
            face: 0,
            bound: -10_000_000_000_000,
        },
        OUT,
    ],
    // Cuts of two boxes in turn, and of one at the end.
    &[
        Step::Cut {
            id: 1,
            face: 0,
            bound: 3,
        },
        Step::Cut {
            id: 1,
            face: 1,
            bound: 9,
        },
        Step::Cut {
            id: 2,
            face: 2,
            bound: 4,
        },
        Step::Cut {
            id: 1,
            face: 3,
            bound: 8,
        },
        INSIDE,
        Step::Cut {
            id: 2,
            face: 4,
            bound: 5,
        },
        OUT,
        Step::Cut {
            id: 7,
            face: 5,
            bound: 6,
        },
        Step::Cut {
            id: 7,
            face: 0,
            bound: 7,
        },
    ],
    &[
        INSIDE,
        INSIDE,
        OUT,
        OUT,
        Step::Split { id: 1, axis: 0 },
        Step::Edge {
            id: 3,
            lo: -4,
            hi: 4,
        },
    ],
    &[
        AGAIN,
        AGAIN,
        Step::Cut {
            id: 4,
            face: 1,
            bound: 1,
        },
    ],
    // The first box and the last that a line may have.
    &[
        OUT,
        INSIDE,
        Step::Split { id: 2, axis: 0 },
        Step::Split { id: 3, axis: 0 },
        Step::Split { id: 3, axis: 0 },
        Step::Split {
            id: 400_000,
            axis: 0,
        },
        Step::Split { id: 0, axis: 0 },
    ],
];

#[test]
fn steps_come_out_as_they_were_put_in(rt: HostRuntime) -> Result<(), Fail> {
    for &steps in &CASES {
        let logged = LoggedSteps::from_slice(rt.alloc(), steps)?.ok_or("no line")?;
        assert_eq!(rt; logged.len(), steps.len());
        let taken: Vec<Step> = logged.ahead().collect(rt.alloc())?;
        assert_eq!(rt; taken.as_slice(), steps);
    }
    Ok(())
}
