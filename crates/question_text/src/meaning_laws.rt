ghost use Rattle.question_text.specs.MeaningLaws.{AskedIsAbout, AskedHasNoUnknownName};
ghost use Rattle.question_text.specs.MeaningLaws.{HasOneUnknownName, MeansOneQuestion};

use bspl_types::{messages_are_named_once, params_are_named_once, roles_are_named_once};

/// A law: a tree asks one question of a protocol at most and has one first unknown name at most,
/// and not both.
pub fn means_once()
    ensures question { MeansOneQuestion }
    ensures unknown { HasOneUnknownName }
    ensures exclusive { AskedHasNoUnknownName }
{
    // laws: a name is that of one message, of one role and of one parameter
    messages_are_named_once();
    roles_are_named_once();
    params_are_named_once();
}

/// A law: what a tree asks of a protocol names only what the protocol has.
pub fn asked_of_the_protocol()
    ensures { AskedIsAbout }
{}
