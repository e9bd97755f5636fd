// An access that cannot be done, and why.
use accesses::{Access, Failure};

#[derive(Clone, Copy)]
pub struct Blocked {
    pub access: Access,
    pub failure: Failure,
}
