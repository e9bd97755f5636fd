// Numbers of 4 and 8 bytes, low byte first, at a place of a list of bytes; and a piece copied over a list. Any place may be asked for.
#![tactic(auto)]

mod copies;
mod loads;
mod size;
mod stores;

pub use copies::{copy, has_room};
pub use loads::load;
pub use size::Size;
pub use stores::store;
