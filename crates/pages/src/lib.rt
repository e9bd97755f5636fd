// The lent pages: what a page list is, and what an address leads to.
#![tactic(auto)]

mod pages;

pub use pages::{ListError, PAGE_BYTES, PAGE_LIMIT, Spot, check_list, find, page_of};
