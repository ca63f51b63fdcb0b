//! The commands in which agents or roles act: `run`, `restart`, `generate` and `serve`.
#![tactic(auto)]

mod agents;
mod answer;
mod generate_command;
mod laws;
mod play;
mod play_mode;
mod restart_command;
mod restart_disks;
mod restart_text;
mod run_command;
mod serve_command;
mod stage_count;
mod wording;
mod world_report;

pub use answer::Answer;
pub use generate_command::generate;
pub use laws::serve_answers_once;
pub use play::{finish, finish_in_threads};
pub use play_mode::PlayMode;
pub use restart_command::restart;
pub use run_command::run;
pub use serve_command::serve;
pub use stage_count::StageCount;
pub use world_report::WorldReport;
