// The memory: the lent pages, what an address leads to, loads and stores.
//
// The crates above use these contracts and nothing else of it. Any entries, any bytes and any access may be handed in; each
// contract gives outright what comes back and what every lent byte holds then.
//
// Pages and bytes stay two parameters, here and above: of a struct that holds the `&mut` bytes each contract would have to say besides that
// it keeps its pages and that its bytes are those that were lent; of two slices their types say it.
#![tactic(auto)]

mod blocked;
mod moves;
mod one_page;

pub use accesses::{Access, Failure, Kind};
pub use addresses::{Width, canonical};
pub use blocked::Blocked;
pub use moves::{load, store};
pub use numbers::Size;
pub use one_page::{locate, store_at};
pub use pages::{ListError, PAGE_BYTES, PAGE_LIMIT, Spot, check_list, find, page_of};
