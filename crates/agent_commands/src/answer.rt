use super::play_mode::PlayMode;
use agent_scripts::Job;
use program_frame::Reply;
use tool_input::Status;

/// What is answered before any agent plays.
#[derive(Drop)]
pub enum Answer {
    /// The whole reply.
    Whole(Reply<Status>),
    /// The reply so far. The agents of the job are to play in this mode, and what is written of
    /// them comes after its text.
    Play {
        job: Job,
        mode: PlayMode,
        so_far: Reply<Status>,
    },
}
