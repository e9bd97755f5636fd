// Writing a run as a sheet into a lent buffer.
#![tactic(auto)]

mod lay;
mod text;
mod values;

pub use text::{WriteError, write};
