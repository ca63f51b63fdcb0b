//! Tests of runs and of agents by their public calls.
#![tactic(auto)]

#[cfg(test)]
mod acts;
#[cfg(test)]
mod audit_tests;
#[cfg(test)]
mod decision_rows;
#[cfg(test)]
mod decision_tests;
#[cfg(test)]
mod durable_fixtures;
#[cfg(test)]
mod durable_tests;
#[cfg(test)]
mod emission_tests;
#[cfg(test)]
mod fixtures;
#[cfg(test)]
mod knowledge_tests;
#[cfg(test)]
mod loss_tests;
#[cfg(test)]
mod permission_tests;
#[cfg(test)]
mod protocols;
#[cfg(test)]
mod reception_tests;
#[cfg(test)]
mod restart_tests;
#[cfg(test)]
mod start_tests;
#[cfg(test)]
mod stop_tests;
#[cfg(test)]
mod world_tests;
