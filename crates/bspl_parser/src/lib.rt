//! Protocol texts: their tokens, their grammar and their documents.
#![tactic(auto)]

mod document;
mod grammar;
mod item_parser;
mod laws;
mod layout;
mod list_kind;
mod list_parser;
mod name_length;
mod packed_token;
mod parse_error;
mod parser;
mod printer;
mod scanner;
mod symbol;
mod text;
mod token;
mod token_stream;
mod tokens;
mod word;

pub use document::{
    Adorn, Declaration, DeclarationList, Document, Formal, FormalList, Item, ItemList, Reference,
    Schema,
};
pub use laws::{answers_once, equal_words, reads_back, spaced_tokens, tokens_once};
pub use parser::parse;
pub use printer::print;
pub use symbol::Symbol;
pub use text::Text;
pub use token::Token;
pub use tokens::{TokensError, tokens_of};
pub use word::{Word, WordList};
