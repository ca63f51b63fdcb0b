//! Why a formula without a model speaks of all runs.
#![tactic(auto)]

mod laws;

pub use laws::{
    assignment_exists, bound_exactly_if_sent, delivery_holds, freshness_holds,
    known_exactly_if_carried, occurrence_holds, occurs_exactly_if_some_event, order_holds,
    premises_hold, reports_show, rest_holds, rivals_hold, shared_clauses_hold, unsatisfiable_holds,
    violation_has_model,
};
