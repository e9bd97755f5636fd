// The lines of a run sheet: a name, numbers, a line feed. Reading and writing whole sheets stands above this crate.
#![tactic(auto)]

mod forms;
mod lent;
mod line;

pub use lent::Parts;
pub use line::Line;

// The newest version of a sheet.
pub const VERSION: u64 = 1;

// How many values of 8 bytes a page has.
pub const SLOTS: usize = 512;
