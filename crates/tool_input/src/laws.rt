ghost use Rattle.tool_input.specs.Laws.{DeclaredIsNotRefused, OneDeclaration, OneTextRefusal};

/// A law: a protocol text declares one protocol at most for a name, or is refused for one reason.
pub fn texts_are_judged_once()
    ensures declaration { OneDeclaration }
    ensures refusal { OneTextRefusal }
    ensures exclusive { DeclaredIsNotRefused }
{
    // law: a text spells one document at most, or has one first error
    bspl_parser::answers_once();
    // law: a name has one expansion in a document at most, or is refused for one reason
    protocol_expand::answers_once();
    // law: an expansion is refused for one reason at most, and for none if it is admitted
    protocol_expand::refuses_once();
}
