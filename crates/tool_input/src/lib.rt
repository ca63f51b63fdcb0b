//! What an input declares, and the frame of the programs whose commands are done on it.
#![tactic(auto)]

mod answer_error;
mod input_part;
mod input_protocol;
mod laws;
mod limits;
mod message_name;
mod need;
mod parts;
mod question;
mod refusal;
mod rejection;
mod rejection_text;
mod request;
mod role_name;
mod status;
mod undeclared_name;

pub use answer_error::{AnswerError, error_for};
pub use input_part::needed_part;
pub use input_protocol::{declared_protocol, protocol_of};
pub use laws::texts_are_judged_once;
pub use limits::{INPUT_LIMIT, TEXT_LIMIT};
pub use message_name::unknown_message;
pub use need::{Need, given};
pub use parts::{Part, first_part, protocol_text};
pub use question::Question;
pub use refusal::InputRefusal;
pub use rejection::{Code, Field, Rejection, input_rejection, text_rejection};
pub use rejection_text::{refused, rejection_line};
pub use request::Request;
pub use role_name::unknown_role;
pub use status::Status;
pub use undeclared_name::{undeclared_parameter, undeclared_role};
