// The answers of the processor's operations, and their faults.
#![tactic(auto)]

mod answer;
mod faults;

pub use answer::{Answer, Fault, NO_ROOM, NO_SHEET, Refusal, Report, Vector};
pub use faults::{control_fault, fault};
