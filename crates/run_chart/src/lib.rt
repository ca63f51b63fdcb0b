//! A run as a sequence chart, beside a table of its events, for a page.
#![tactic(auto)]

mod cells;
mod chart;
mod circle;
mod events;
mod finding;
mod foot;
mod knowledge;
mod labels;
mod laws;
mod lifelines;
mod occurrence;
mod place;
mod rows;
mod shown;
mod strokes;
mod wording;
mod words;

pub use chart::push_chart;
pub use finding::Finding;
pub use laws::{
    arrows_join_instances, marks_are_the_events, receptions_have_arrows, shows_knowledge,
    stubs_are_missing,
};
