//! What a role's agent does next at its store, and between its store and the mailboxes.
#![tactic(auto)]

mod arrival;
mod desk;
mod emission;
mod gate;
mod intake;
mod laws;
mod locked;
mod next;
mod posted_emission;
mod reception;
mod role_state;
mod step;
mod worker;

pub use arrival::deliver;
pub use desk::Desk;
pub use emission::{desk_emit, desk_plan};
pub use gate::{Gate, OpenGate};
pub use intake::drain;
pub use laws::{
    is_orderly, kept_events_are_few, new_states_are_kept, next_envelopes_are_one,
    orders_are_distinct, taken_envelopes_explain,
};
pub use locked::Locked;
pub use posted_emission::step_emit;
pub use reception::{desk_take, step_take};
pub use role_state::RoleState;
pub use worker::Worker;
