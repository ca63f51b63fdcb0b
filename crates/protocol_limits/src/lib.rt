//! The first cycle of references, or count over its limit.
#![tactic(auto)]

mod bounds;
mod counts;
mod followed;
mod laws;
mod limit;
mod limits;
mod outcome;
mod oversized;
mod path_totals;
mod precheck;
mod references;
mod sorted_document;
mod weights;

pub use bounds::{DEPTH_LIMIT, PROTOCOL_LIMIT};
pub use laws::{
    messages_are_counted, numbers_are_of_protocols, privates_are_counted, references_are_a_graph,
    unrolled_have_orders, unrolled_paths_are_short,
};
pub use limit::Limit;
pub use outcome::Survey;
pub use precheck::survey;
