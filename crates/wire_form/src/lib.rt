//! Lines of JSON in which an agent asks for receipts and emissions, and the lines that answer.
#![tactic(auto)]

mod act;
mod any_order;
mod asked;
mod in_order;
mod json_parts;
mod laws;
mod line;
mod meaning;
mod member;
mod member_values;
mod message_text;
mod named_values;
mod names;
mod quoted;
mod reply;
mod reply_text;
mod sorted;
mod texts;

pub use act::{Act, Reading};
pub use laws::{arrays_have_texts, asks_once};
pub use line::LineReader;
pub use member_values::spelled_values;
pub use message_text::push_message;
pub use named_values::push_values;
pub use names::{message_name, param_name};
pub use quoted::{push_quoted, push_value};
pub use reply::{Refusal, Reply};
pub use reply_text::push_reply;
pub use texts::{are_texts, texts_of};
