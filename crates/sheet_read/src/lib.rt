// Reading a run sheet into lent buffers.
#![tactic(auto)]

mod buffers;
mod fill;
mod row;
mod scan;
mod shape;
mod stage;
mod words;

pub use buffers::{ReadError, Sizes, read};
