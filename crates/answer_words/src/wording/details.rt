//! What a user reads of what helps to see a fault, word for word.

// What may stand at a place: the words and signs of the language, and a name.
pub(crate) const HERE_MAY_STAND: &[u8] = b"Here may stand:";

pub(crate) const SIGNS: &[u8] = b"NAME -> \xe2\x86\xa6 : , [ ] { } ( ) in out nil any opt key \
roles role parameters parameter private";

// The name or the line that is nearest to the one given.
pub(crate) const PART_MARK: &[u8] = b"%% ";

pub(crate) const NEAREST_LINE: &[u8] = b"The nearest line: ";

pub(crate) const NO_LINE: &[u8] = b"No line of the input is nearly that line.\n";

pub(crate) const NEAREST: &[u8] = b"The nearest ";

pub(crate) const THAT_IS_DECLARED: &[u8] = b" that is declared is ";

pub(crate) const NO_NAME: &[u8] = b"No ";

pub(crate) const NEARLY_THIS_ONE: &[u8] = b" with a name that is nearly this one is declared.\n";

pub(crate) const ROLE: &[u8] = b"role";

pub(crate) const PARAMETER: &[u8] = b"parameter";

pub(crate) const PROTOCOL: &[u8] = b"protocol";

pub(crate) const MESSAGE: &[u8] = b"message";

// The part line that comes first, and a line that leaves no room for the one that is refused.
pub(crate) const FIRST_PART_LINE: &[u8] = b"The first part line: ";

pub(crate) const EXCLUDED_BY: &[u8] = b"A line before it excludes it: ";

// How many roles and parameters a reference gives, and how many its protocol declares.
pub(crate) const ROLES: &[u8] = b"Roles: ";

pub(crate) const HERE: &[u8] = b" here, ";

pub(crate) const PARAMETERS: &[u8] = b" declared. Adorned parameters: ";

pub(crate) const DECLARED: &[u8] = b" declared.\n";

// Where a message of an expansion is declared, and by which references it comes.
pub(crate) const IN_PROTOCOL: &[u8] = b"In ";

pub(crate) const IS_DECLARED: &[u8] = b" it is the message that is declared here: ";

pub(crate) const BY_REFERENCE: &[u8] = b"It comes by this reference: ";

// The name of an expansion that may be meant by one that it does not have.
pub(crate) const MAY_BE: &[u8] = b" it may be the ";

pub(crate) const THE: &[u8] = b" the ";

pub(crate) const NEAREST_TO: &[u8] = b" nearest to ";

pub(crate) const THAT_MAY_STAND: &[u8] = b" that may stand there is ";

pub(crate) const NO: &[u8] = b" no ";

pub(crate) const NEARLY_CALLED: &[u8] = b" that is nearly called ";

pub(crate) const MAY_STAND: &[u8] = b" may stand there.\n";
