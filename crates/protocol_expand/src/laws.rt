ghost use Rattle.protocol_expand.specs.FlatLaws.{ExpansionsKeepNames};
ghost use Rattle.protocol_expand.specs.FlatLaws.{FlatExpansionsAreUnique, WellScopedExpand};
ghost use Rattle.protocol_expand.specs.Laws.{AnswersAreDistinct, ExpansionsAreUnique};
ghost use Rattle.protocol_expand.specs.Laws.{PlainStandsForItself, RefusalsAreUnique, TextsAreUnique};
ghost use Rattle.protocol_expand.specs.NotAdmitted.{AdmittedIsNotRefused, RefusalsAreOne};

use bspl_parser::equal_words;
use protocol_limits::references_are_a_graph;
use protocol_names::faults_have_causes;
use protocol_paths::{paths_by_items, plain_protocols_are_flat};
use reference_graph::{cycles_are_one, weights_add_up};

/// A law: a well-scoped protocol has an expansion.
pub fn well_scoped_protocols_expand()
    ensures { WellScopedExpand }
{}

/// A law: no protocol of messages alone has two expansions.
pub fn expansions_are_unique()
    ensures { FlatExpansionsAreUnique }
{}

/// A law: an expansion has the declared names, and as many keys as are declared.
pub fn expansions_keep_names()
    ensures { ExpansionsKeepNames }
{}

/// A law: a name has one answer. It has one expansion at most, it is refused for one reason at most
/// but for out of memory, and not both.
pub fn answers_once()
    ensures expansions { ExpansionsAreUnique }
    ensures refusals { RefusalsAreUnique }
    ensures distinct { AnswersAreDistinct }
{
    // law: words of one text and one offset are equal
    equal_words();
    // law: the first cycle ends at one node
    cycles_are_one();
    // law: a protocol of messages alone has one expansion at most
    expansions_are_unique();
    // law: an expansion has the declared names
    expansions_keep_names();
}

/// A law: in a document of one plain protocol, the expansion of the protocol is its own.
pub fn plain_protocols_stand_for_themselves()
    ensures { PlainStandsForItself }
{
    // law: words of one text and one offset are equal
    equal_words();
    // law: faults of names and parameters have their causes
    faults_have_causes();
    // law: what each item of a body leads to
    paths_by_items();
    // law: a plain protocol is its own flat protocol
    plain_protocols_are_flat();
    // law: the weight of a node is its own, and those of the nodes that it refers to
    weights_add_up();
    // law: the references of a document are a graph
    references_are_a_graph();
    // law: an expansion has the declared names
    expansions_keep_names();
}

/// A law: an expansion has one text.
pub fn prints_once()
    ensures { TextsAreUnique }
{}

/// A law: an expansion is refused for one reason at most, unless memory ran out, and for none if it
/// is admitted.
pub fn refuses_once()
    ensures refusals { RefusalsAreOne }
    ensures exclusive { AdmittedIsNotRefused }
{}
