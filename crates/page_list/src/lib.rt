//! A list in pages. An insertion moves at most the items of one page and the list of pages.
#![tactic(auto)]

mod iter;
mod page;
mod page_list;
mod slot;
mod split;
mod starts;

pub use iter::Iter;
pub use page_list::PageList;
pub use slot::Slot;
pub use split::{Pages, Split};
