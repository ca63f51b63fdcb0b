use agent_scripts::Plan;
use reorder_net::lost;

/// A plan that loses some messages.
const PLAN: Plan = Plan {
    seed: 0,
    loss: 100,
    repeat: 0,
};

/// A message, the number of a key, and whether the message is lost there.
struct Row {
    message: u32,
    n: u64,
    is_lost: bool,
}

const ROWS: &[Row] = &[
    Row {
        message: 0,
        n: 6,
        is_lost: true,
    },
    Row {
        message: 1,
        n: 7,
        is_lost: true,
    },
    Row {
        message: 2,
        n: 8,
        is_lost: true,
    },
    Row {
        message: 0,
        n: 7,
        is_lost: false,
    },
];

#[test]
fn a_plan_loses_some_messages(rt: HostRuntime) {
    for row in ROWS {
        assert!(rt; lost(&PLAN, row.message, row.n) == row.is_lost);
    }
}
