//! Reads an agents text, or names its first bad line.
#![tactic(auto)]

mod agents;
mod agents_text;
mod decline_line;
mod key_line;
mod keys;
mod laws;
mod line;
mod line_error;
mod lines;
mod names;
mod next_line;
mod numbers;
mod order_line;
mod orders;
mod plan;
mod plan_line;
mod ranges;
mod reader;
mod rules;
mod settings;
mod statements;
mod value_line;

pub use agents_text::read_scripts;
pub use laws::reads_once;
