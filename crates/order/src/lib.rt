// The order of pages by address: a page's number, and which page of a list comes next.
#![tactic(auto)]

mod order;

pub use order::{next_page, page_number};
