use bspl_types::Name;
use list_base::Seq;

/// What may have happened, as it is written.
#[derive(Drop)]
pub enum Said {
    /// The message was sent.
    Sent(Name),
    /// It was received.
    Received(Name),
    /// The role has learned a value of the parameter.
    Knows { role: Name, param: Name },
    /// Some role has.
    Bound(Name),
}

/// A question as it is written, with a node for each pair of brackets, so that its tokens are a
/// function of it.
#[derive(Drop)]
pub enum Tree {
    /// It has happened.
    Happened(Said),
    /// The first happened when the second had not.
    Before(Said, Said),
    /// The first happened, and the second had happened before.
    After(Said, Said),
    /// The message can be sent now.
    Can(Name),
    /// All is at rest, but for these messages.
    Rest(Seq<Name>),
    Not(Box<Tree>),
    And(Box<Tree>, Box<Tree>),
    Or(Box<Tree>, Box<Tree>),
    /// A question in brackets.
    Bracketed(Box<Tree>),
}
