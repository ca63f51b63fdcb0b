ghost use Rattle.agent_commands.specs.ServeAnswer.{OneServeAnswer};

use role_server::replies_are_determined;
use run_text::names_are_fields;

/// A law: the lines for a role have one answer.
pub fn serve_answers_once()
    ensures { OneServeAnswer }
{
    // law: the name of a role has no LF
    names_are_fields();
    // law: the replies to lines are a function of the lines and of the store before them
    replies_are_determined();
}
