// Addresses: sums that wrap at their width, and which are canonical.
#![tactic(auto)]

mod address;

pub use address::{Width, canonical};
