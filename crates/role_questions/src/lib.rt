//! Questions to a live role: what it may send now, what it knows, and what it did.
#![tactic(auto)]

mod answer;
mod asked_role;
mod event_text;
mod form;
mod form_list;
mod form_text;
mod found;
mod key_text;
mod knowledge;
mod laws;
mod line;
mod list_part;
mod permission;
mod question;
mod status_text;
mod value_text;

pub use answer::push_answer;
pub use asked_role::AskedRole;
pub use form::{Form, FormList, KnownValue, KnownValueList};
pub use form_list::forms;
pub use knowledge::known;
pub use laws::{asked_replies_are_determined, forms_are_enabled, question_is_one};
pub use line::read_question;
pub use question::{Question, QuestionReading};
