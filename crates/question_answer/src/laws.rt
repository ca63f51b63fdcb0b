ghost use Rattle.question_answer.specs.Laws.{AcceptedQuestionLogDoesNotFail, BytesAreTitledOnce};
ghost use Rattle.question_answer.specs.Laws.{LogRestIsNotRefused, QuestionLogFailsOnce};
ghost use Rattle.question_answer.specs.Laws.{QuestionStepsAreFewerThanBytes, RestHasOneLog};
ghost use Rattle.question_answer.specs.Laws.{RestHasOneRefusal, WrittenIsQuestionLog};

use clause_encoding::clauses_are_determined;
use log_checker::{clauses_decide, fails_once};
use refutation_log::{reads_once, steps_have_lines};

/// A law: for the formula of a question a log is accepted or has one first failure, and not both.
pub fn question_log_fails_once()
    ensures failure { QuestionLogFailsOnce }
    ensures accepted { AcceptedQuestionLogDoesNotFail }
{
    // law: a question has one formula
    clauses_are_determined();
    // law: what a log does to a formula it does to each with the same clauses
    clauses_decide();
    // law: the same for any formula
    fails_once();
}

/// A law: what is written of a log on a question is a text of it.
pub fn question_logs_written()
    ensures { WrittenIsQuestionLog }
{}

/// A law: a text has one first line.
pub fn titled_once()
    ensures { BytesAreTitledOnce }
{}

/// A law: what follows it is that of one log at most, or refused for one thing, and not both.
pub fn rests_read_once()
    ensures logs { RestHasOneLog }
    ensures refusals { RestHasOneRefusal }
    ensures exclusive { LogRestIsNotRefused }
{
    // law: the same of the text of any log
    reads_once();
}

/// A law: a log has no more steps than its text has bytes.
pub fn question_steps_are_fewer_than_bytes()
    ensures { QuestionStepsAreFewerThanBytes }
{
    // law: each step has a line
    steps_have_lines();
}
