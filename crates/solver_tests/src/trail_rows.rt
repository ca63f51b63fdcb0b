use super::trail_tests::Call::{Add, BackTo, Decide, Propagate, Remove};
use super::trail_tests::Set::{Decided, Forced};
use super::trail_tests::{Row, Step};

/// A formula of two variables that has no solution.
const FOUR: &[&[i32]] = &[&[1, 2], &[-1, 2], &[1, -2], &[-1, -2]];

pub const ROWS: &[Row] = &[
    // a decision falsifies a clause
    Row {
        vars: 2,
        clauses: FOUR,
        steps: &[
            Step {
                call: Propagate(None),
                ready: true,
                live: &[1, 2, 3, 4],
                set: &[],
            },
            Step {
                call: Decide(1),
                ready: false,
                live: &[1, 2, 3, 4],
                set: &[Decided(1, 1)],
            },
            Step {
                call: Propagate(Some(2)),
                ready: false,
                live: &[1, 2, 3, 4],
                set: &[Decided(1, 1), Forced(-2, 1, 4)],
            },
        ],
    },
    // an added clause forces at level 0
    Row {
        vars: 2,
        clauses: FOUR,
        steps: &[
            Step {
                call: Propagate(None),
                ready: true,
                live: &[1, 2, 3, 4],
                set: &[],
            },
            Step {
                call: Decide(2),
                ready: false,
                live: &[1, 2, 3, 4],
                set: &[Decided(2, 1)],
            },
            Step {
                call: BackTo(0),
                ready: false,
                live: &[1, 2, 3, 4],
                set: &[],
            },
            Step {
                call: Add(&[-1], 5),
                ready: false,
                live: &[1, 2, 3, 4, 5],
                set: &[],
            },
            Step {
                call: Propagate(Some(1)),
                ready: false,
                live: &[1, 2, 3, 4, 5],
                set: &[Forced(-1, 0, 5), Forced(-2, 0, 3)],
            },
        ],
    },
    // units force one after the other
    Row {
        vars: 3,
        clauses: &[&[-3], &[1, 3], &[-1, 2]],
        steps: &[Step {
            call: Propagate(None),
            ready: true,
            live: &[1, 2, 3],
            set: &[Forced(-3, 0, 1), Forced(1, 0, 2), Forced(2, 0, 3)],
        }],
    },
    // an empty clause is false
    Row {
        vars: 3,
        clauses: &[&[1, 2], &[]],
        steps: &[
            Step {
                call: Propagate(Some(2)),
                ready: false,
                live: &[1, 2],
                set: &[],
            },
            Step {
                call: Propagate(Some(2)),
                ready: false,
                live: &[1, 2],
                set: &[],
            },
        ],
    },
    // a removed clause forces nothing, whichever of its literals is false
    Row {
        vars: 3,
        clauses: &[&[-1, 2], &[-1, 3]],
        steps: &[
            Step {
                call: Remove(1),
                ready: false,
                live: &[2],
                set: &[],
            },
            Step {
                call: Propagate(None),
                ready: true,
                live: &[2],
                set: &[],
            },
            Step {
                call: Decide(1),
                ready: false,
                live: &[2],
                set: &[Decided(1, 1)],
            },
            Step {
                call: Propagate(None),
                ready: true,
                live: &[2],
                set: &[Decided(1, 1), Forced(3, 1, 2)],
            },
            Step {
                call: Decide(-2),
                ready: false,
                live: &[2],
                set: &[Decided(1, 1), Forced(3, 1, 2), Decided(-2, 2)],
            },
            Step {
                call: Propagate(None),
                ready: true,
                live: &[2],
                set: &[Decided(1, 1), Forced(3, 1, 2), Decided(-2, 2)],
            },
        ],
    },
    // a clause that is removed above level 0 forces nothing
    Row {
        vars: 3,
        clauses: &[&[-1, 2], &[-1, 3]],
        steps: &[
            Step {
                call: Propagate(None),
                ready: true,
                live: &[1, 2],
                set: &[],
            },
            Step {
                call: Decide(1),
                ready: false,
                live: &[1, 2],
                set: &[Decided(1, 1)],
            },
            Step {
                call: Remove(1),
                ready: false,
                live: &[2],
                set: &[Decided(1, 1)],
            },
            Step {
                call: Propagate(None),
                ready: true,
                live: &[2],
                set: &[Decided(1, 1), Forced(3, 1, 2)],
            },
        ],
    },
    // a clause that is added above level 0 forces there, and a backtrack passes two levels
    Row {
        vars: 3,
        clauses: &[],
        steps: &[
            Step {
                call: Propagate(None),
                ready: true,
                live: &[],
                set: &[],
            },
            Step {
                call: Decide(1),
                ready: false,
                live: &[],
                set: &[Decided(1, 1)],
            },
            Step {
                call: Add(&[2, 3], 1),
                ready: false,
                live: &[1],
                set: &[Decided(1, 1)],
            },
            Step {
                call: Propagate(None),
                ready: true,
                live: &[1],
                set: &[Decided(1, 1)],
            },
            Step {
                call: Decide(-2),
                ready: false,
                live: &[1],
                set: &[Decided(1, 1), Decided(-2, 2)],
            },
            Step {
                call: Propagate(None),
                ready: true,
                live: &[1],
                set: &[Decided(1, 1), Decided(-2, 2), Forced(3, 2, 1)],
            },
            Step {
                call: BackTo(0),
                ready: false,
                live: &[1],
                set: &[],
            },
        ],
    },
];
