ghost use Rattle.std.specs.Prelude.{◌≡◌};
ghost use Rattle.protocol_paths.specs.Path.{end_of};
ghost use Rattle.protocol_paths.specs.inner.Links.{path_of};
ghost use Rattle.protocol_paths.specs.inner.OwnWords.{HaveOwnWords};

use super::link::PathLink;
use bspl_parser::Declaration;

/// The protocol at the end of a path, and the references of the path. What becomes of its names is
/// found along these when it is asked for.
#[derive(Clone, Copy)]
pub(crate) struct Scope<'d, 'o> {
    /// The protocol where the path begins.
    pub top: &'d Declaration<'d>,
    /// The references, from the first on.
    pub links: &'o [PathLink<'d, 'o>],
    /// The protocol at the end of the path.
    pub protocol: &'d Declaration<'d>,
    pub ghost at_end: { protocol.now ≡ end_of top.now (path_of links.now) },
    pub ghost own_words: { HaveOwnWords top.now links.now },
}
