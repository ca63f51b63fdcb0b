//! The lines, fields and decimal numbers of texts.
#![tactic(auto)]

mod decimal;
mod fields;
mod laws;
mod split;

pub use decimal::{DecimalError, are_digits, push_decimal, read_decimal};
pub use fields::first_field;
pub use laws::{numerals_are_decimals, numerals_differ};
pub use split::split_once;
