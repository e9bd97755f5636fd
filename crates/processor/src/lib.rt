// The processor: its state, and what its operations hand back.
#![tactic(auto)]

mod layout;
mod outcome;
mod state;

pub use answers::{Answer, Fault, Refusal, Report, Vector, control_fault, fault};
pub use layout::FIELDS;
pub use outcome::Outcome;
pub use state::State;
