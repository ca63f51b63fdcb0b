//! The expansion of a protocol, its text, and whether it is admitted.
#![tactic(auto)]

mod admission;
mod declaration;
mod expansion;
mod flat;
mod flat_expansion;
mod laws;
mod message_fault;
mod messages;
mod param_names;
mod printed_text;
mod repeats;
mod schemas;

pub use admission::admit;
pub use declaration::declaration_of;
pub use expansion::expand;
pub use flat_expansion::expansion_of_well_scoped;
pub use laws::{
    answers_once, expansions_are_unique, expansions_keep_names,
    plain_protocols_stand_for_themselves, prints_once, refuses_once, well_scoped_protocols_expand,
};
pub use printed_text::print_expanded;
