ghost use Rattle.bspl_tool.specs.Laws.{CallsAreTrue, LinesRequestTasks, OneAnswer, OneRejection};
ghost use Rattle.bspl_tool.specs.Laws.{RefusalIsAll, UsageIsAll};

/// A law: what a call writes claims only what is true of the protocol that it judges.
pub fn calls_are_true()
    ensures { CallsAreTrue }
{}

/// A law: each command line requests a task, and arguments that are none get the usage line alone.
/// There is one reason at most to refuse arguments and an input, what is refused is not answered,
/// and `check`, `check-dead`, `replay`, `serve` and `expand` have one answer at most. `verify`,
/// `dead` and `run` may have several: the search may find another run, log or number of steps, and the answer
/// with it is right too. So it is with `audit`, whose run or cycle may be another.
pub fn answers_are_distinct()
    ensures tasks { LinesRequestTasks }
    ensures usage { UsageIsAll }
    ensures rejection { OneRejection }
    ensures refused { RefusalIsAll }
    ensures answer { OneAnswer }
{
    // law: arguments are one command line at most
    command_line::one_line();
    // law: a protocol text declares one protocol at most, or is refused for one reason
    tool_input::texts_are_judged_once();
    // law: an expansion has one text
    protocol_expand::prints_once();
    // law: a text is that of one log at most, or has one first bad line
    refutation_log::reads_once();
    // law: a log is accepted or has one first failure
    protocol_check::log_fails_once();
    // law: a text is that of one run at most, or has one first bad line
    run_text::reads_once();
    // law: a run has one report
    report::replay_is_once();
    // law: a text is that of one log on one message at most, or has one first bad line
    enactability::dead_texts_read_once();
    // law: such a log is accepted or has one first failure
    enactability::dead_log_fails_once();
    // law: a text gives one script at most, or has one first bad line
    script_text::reads_once();
    // law: a text is that of one list of histories at most, or has one first bad line
    history_audit::reads_once();
    // law: the lines for a role have one answer
    agent_commands::serve_answers_once();
}
