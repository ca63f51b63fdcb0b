//! Tests of the language's crates by their public calls.
#![tactic(auto)]

#[cfg(test)]
mod bspl_io_tests;
#[cfg(test)]
mod bspl_parser_tests;
#[cfg(test)]
mod bspl_types_tests;
#[cfg(test)]
mod enactment_model_tests;
#[cfg(test)]
mod expanded_tests;
#[cfg(test)]
mod expansion_tests;
#[cfg(test)]
mod graphs;
#[cfg(test)]
mod instance_tests;
#[cfg(test)]
mod layout_tests;
#[cfg(test)]
mod limit_tests;
#[cfg(test)]
mod list_base_tests;
#[cfg(test)]
mod protocol_limits_tests;
#[cfg(test)]
mod protocol_names_tests;
#[cfg(test)]
mod protocol_rules_tests;
#[cfg(test)]
mod protocols;
#[cfg(test)]
mod question_text_tests;
#[cfg(test)]
mod reference_graph_tests;
#[cfg(test)]
mod workload_tests;
