ghost use Rattle.wire_form.specs.Laws.{ArraysOfTexts, LineAsksOnce, LineHasOneAct};

use bspl_types::spells_once;
use role_journal::fitting_instances_are_one;

/// A law: a line asks for one thing at most, and for one act of a role.
pub fn asks_once()
    ensures requests { LineAsksOnce }
    ensures acts { LineHasOneAct }
{
    // law: values of one spelling are equal
    spells_once();
    // law: the message and the values of an instance tell its key
    fitting_instances_are_one();
}

/// A law: which arrays of JSON are those of texts.
pub fn arrays_have_texts()
    ensures { ArraysOfTexts }
{}
