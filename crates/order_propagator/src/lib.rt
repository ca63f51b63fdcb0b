//! A trail over a formula whose first clauses are those of an order, which are made where they
//! force a literal or are false.
#![tactic(auto)]

mod bit_rows;
mod bits;
mod closing;
mod known_pairs;
mod making;
mod named_trail;
mod order_lit;
mod order_rows;
mod pair_table;
mod reading;
mod row_update;
mod stop;
mod trail;

pub use trail::OrderTrail;
