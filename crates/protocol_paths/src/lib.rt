//! A protocol with references, flattened to messages alone.
#![tactic(auto)]

mod context;
mod copies;
mod descent;
mod ends;
mod flat_protocol;
mod flat_top;
mod followed;
mod image;
mod laws;
mod link;
mod link_lookup;
mod name_tables;
mod own_words;
mod prefix;
mod scope;
mod substitution;

pub use flat_protocol::{FlatProtocol, SchemaList};
pub use flat_top::flatten;
pub use followed::Followed;
pub use laws::{
    longer_bounds_add_nothing, message_paths_are_all, no_cycle_bounds_depth, paths_are_all,
    paths_by_items, plain_protocols_are_flat, scopes_compose,
};
