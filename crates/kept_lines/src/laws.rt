ghost use Rattle.kept_lines.specs.CrashImage.{CrashLeavesLines};
ghost use Rattle.kept_lines.specs.Replay.{AnswersJoin, KeepsOrStays, KeptLinesReplay};
ghost use Rattle.kept_lines.specs.Replay.{LinesHaveOneOutcome};
ghost use Rattle.kept_lines.specs.Text.{LinesJoin};

use super::responder::Responder;

/// A law: of a file of zeros, in which lines were kept and others begun behind them, a crash leaves
/// a text. It is all that was kept, followed by the first of the begun lines, in order and whole.
pub fn crash_leaves_lines()
    ensures { CrashLeavesLines }
{}

/// A law: lines behind lines are lines.
pub fn lines_join()
    ensures { LinesJoin }
{}

/// A law: what was kept of the first lines of a text, answered again, is all kept again, and leads
/// to the same state, if each line that is kept has its LF and each other leaves the state as it
/// is; lines have one outcome, if each of them has.
pub fn kept_lines_replay<A: Responder>()
    ensures replay { KeepsOrStays A.answers → KeptLinesReplay A.answers }
    ensures once { LinesHaveOneOutcome A.answers }
{}

/// A law: lines behind lines are answered after them, from the state that those led to.
pub fn answers_join<A: Responder>()
    ensures { AnswersJoin A.answers }
{}
