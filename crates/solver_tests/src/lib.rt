//! Tests of the crates on clauses, logs and the solver.
#![tactic(auto)]

#[cfg(test)]
mod checker_tests;
#[cfg(test)]
mod clause_tests;
#[cfg(test)]
mod dead_tests;
#[cfg(test)]
mod formulas;
#[cfg(test)]
mod liveness_tests;
#[cfg(test)]
mod log_tests;
#[cfg(test)]
mod long_search_tests;
#[cfg(test)]
mod order_tests;
#[cfg(test)]
mod order_trail_tests;
#[cfg(test)]
mod protocols;
#[cfg(test)]
mod question_tests;
#[cfg(test)]
mod solve_tests;
#[cfg(test)]
mod trail_rows;
#[cfg(test)]
mod trail_tests;
