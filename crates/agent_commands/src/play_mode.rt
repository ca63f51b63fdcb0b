use super::world_report::WorldReport;
use command_line::ThreadCount;

/// How the agents of a job play, and what is written of their world.
#[derive(Clone, Copy, Debug, PartialEq, Eq)]
pub enum PlayMode {
    /// Each role in so many threads; the report.
    InThreads {
        threads: ThreadCount,
        report: WorldReport,
    },
    /// All on one thread, over disks of which each stops once; the table, and how many roles were
    /// restarted.
    OverDisks,
}
