// Accesses, byte by byte: whether one can be done, the number that it loads, and the bytes that it leaves. Each byte's address is looked
// up by itself, so that an access may lie on two pages. The memory above looks up less where all bytes lie on one.
//
// Any entries, any bytes and any access may be handed in; each contract gives outright what comes back and what every lent byte holds then.
#![tactic(auto)]

mod access;
mod load;
mod reach;
mod store;

pub use access::{Access, Kind};
pub use reach::Failure;
