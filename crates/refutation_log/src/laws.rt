ghost use Rattle.refutation_log.specs.Ledger.{IsLive, IsContaining};
ghost use Rattle.refutation_log.specs.ResolutionLaws.{StepsAppend, NewClausesAppend, RunsAppend};
ghost use Rattle.refutation_log.specs.ResolutionLaws.{PlainLogsResolve, NewLogsResolve};
ghost use Rattle.refutation_log.specs.ResolutionLaws.{NewClausesAreIrredundant, StepsAreCounted};
ghost use Rattle.refutation_log.specs.TextLaws.{LogIsNotRefused, StepsAreFewerThanBytes};
ghost use Rattle.refutation_log.specs.TextLaws.{StepsAreFewerThanLineBytes};
ghost use Rattle.refutation_log.specs.TextLaws.{TextHasOneLog, TextHasOneRefusal, WrittenTextsAreTexts};

/// A law: a step at the end of a log derives its clause from all the clauses before it.
pub fn step_appends()
    ensures { StepsAppend }
{}

/// A law: new clauses stay new if a new one comes after them.
pub fn new_clause_appends()
    ensures { NewClausesAppend }
{}

/// A law: entries after entries run on from where those ended.
pub fn entries_append()
    ensures live { RunsAppend IsLive }
    ensures containing { RunsAppend IsContaining }
{}

/// A law: a log without removals resolves if each step derives its clause from all before it.
pub fn plain_resolves()
    ensures live { PlainLogsResolve IsLive }
    ensures containing { PlainLogsResolve IsContaining }
{}

/// A law: a new log resolves.
pub fn new_resolves()
    ensures { NewLogsResolve }
{}

/// A law: no clause of a new log contains a clause of the formula or one derived before it, or a
/// literal together with its negation.
pub fn new_clauses_are_irredundant()
    ensures { NewClausesAreIrredundant }
{}

/// A law: a log that resolves derives a clause for each step.
pub fn steps_are_counted()
    ensures { StepsAreCounted }
{}

/// A law: a text is that of one log at most, or refused for one thing, and not both.
pub fn reads_once()
    ensures logs { TextHasOneLog }
    ensures refusals { TextHasOneRefusal }
    ensures exclusive { LogIsNotRefused }
{}

/// A law: what is written of a log is a text of it.
pub fn writes_texts()
    ensures { WrittenTextsAreTexts }
{}

/// A law: a log has no more steps than its text has bytes.
pub fn steps_are_fewer_than_bytes()
    ensures { StepsAreFewerThanBytes }
{}

/// A law: nor than the lines of its entries have.
pub fn steps_have_lines()
    ensures { StepsAreFewerThanLineBytes }
{}
