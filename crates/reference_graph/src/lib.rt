//! Graphs of references: cycles, depths and numbers of paths.
#![tactic(auto)]

mod edge;
mod graph;
mod laws;
mod marks;
mod path_counts;
mod search;
mod traversal;
mod walk_result;

pub use edge::Edge;
pub use graph::{Graph, is_graph};
pub use laws::{
    acyclic_graphs_have_orders, cycles_are_one, depths_are_longest, orders_are_short,
    orders_have_no_cycle, orders_have_the_reached, paths_are_short, walks_have_results,
    weights_add_up,
};
pub use path_counts::{depths, weights_below};
pub use traversal::walk;
pub use walk_result::WalkResult;
