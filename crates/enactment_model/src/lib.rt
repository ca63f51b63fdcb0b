//! Legal runs, safety and liveness: definitions, decisions and laws.
#![tactic(auto)]

mod bad_event;
mod boundness;
mod conflicts;
mod examples;
mod known_values;
mod laws;
mod legality;
mod occurrence;
mod producing_messages;
mod quietness;

pub use bad_event::{BadEvent, Why};
pub use boundness::{is_bound, unbound};
pub use conflicts::{Conflict, least_rival, producers};
pub use examples::{
    nothing_is_not_live, ping_comes_to_rest, ping_is_safe_and_live, rivals_disagree,
    twin_is_not_safe,
};
pub use laws::{
    known_exactly_if_some_event_binds, legal_by_positions, no_conflict_agrees,
    one_producer_is_safe, prefix_is_legal, projection_keeps, second_emission_is_not_enabled,
    shortest_conflict, violated_does_not_hold,
};
pub use legality::{legal, may_follow};
pub use occurrence::{is_emitted_under, is_received_under};
pub use producing_messages::{shares_out, single_producer};
pub use quietness::{Loose, quiet};
