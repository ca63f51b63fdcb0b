ghost use Rattle.protocol_paths.specs.Laws.{LongerBoundsAddNothing, MessagePathsAreAll};
ghost use Rattle.protocol_paths.specs.Laws.{NoCycleBoundsDepth, PathsAreAll, PathsByItems};
ghost use Rattle.protocol_paths.specs.Laws.{PlainProtocolsAreFlat, ScopesCompose};

/// A law: if no path from a protocol closes, each has at most as many references as there are
/// protocols.
pub fn no_cycle_bounds_depth()
    ensures { NoCycleBoundsDepth }
{}

/// A law: where no path is longer than a bound, a longer bound gives the same paths, messages and
/// private parameters.
pub fn longer_bounds_add_nothing()
    ensures { LongerBoundsAddNothing }
{}

/// A law: the messages listed are those to which a path of positions leads, each once, in
/// lexicographic order.
pub fn message_paths_are_all()
    ensures { MessagePathsAreAll }
{}

/// A law: the paths listed, whose ends give the private parameters, are those of positions that
/// lead to a protocol, each once, in lexicographic order.
pub fn paths_are_all()
    ensures { PathsAreAll }
{}

/// A law: what becomes of a name at the end of a path is the composition of the maps of the
/// path's references.
pub fn scopes_compose()
    ensures { ScopesCompose }
{}

/// A law: a protocol without references is its own flat protocol.
pub fn plain_protocols_are_flat()
    ensures { PlainProtocolsAreFlat }
{}

/// A law: what the end of a path and the items of a body lead to.
pub fn paths_by_items()
    ensures { PathsByItems }
{}
