//! The legal run that a model of a formula describes.
#![tactic(auto)]

mod events;
mod instances;
mod laws;
mod order;
mod replay;
mod values;
mod witness;

pub use instances::key_of_ones;
pub use laws::{model_refutes, model_shows, run_emits_once, shared_model_has_run};
pub use replay::order_run;
pub use witness::{first_events, resting_run_of, run_of, witness_of};
