//! Whether one legal run explains the histories that several roles hand in.
#![tactic(auto)]

mod audit_no;
mod bad_place;
mod cycle;
mod explanation;
mod histories;
mod judgement;
mod laws;
mod merged_run;
mod reader;
mod refusal;
mod section;
mod section_lines;
mod sections;
mod waits;

pub use audit_no::{AuditNo, Point, PointList};
pub use explanation::audit;
pub use histories::Histories;
pub use laws::{bad_place_is_not_explained, cycle_is_not_explained, reads_once};
pub use reader::read_histories;
pub use refusal::HistoryRefusal;
pub use section::Section;
