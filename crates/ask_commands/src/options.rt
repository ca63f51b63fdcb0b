use command_line::Budget;

/// How questions are answered: with logs or without, and how many conflicts each search may meet.
#[derive(Clone, Copy, Debug, PartialEq, Eq)]
pub struct AskOptions {
    pub brief: bool,
    pub conflicts: Budget,
}
