// Numbers in a text: hexadecimal digits, fields behind tabs, and lines of any name. Which lines there are stands above this crate.
#![tactic(auto)]

mod digits;
mod put;

pub use digits::{is_digit, number};
pub use put::{FIELD, put_line};
