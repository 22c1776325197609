// The print of an accepted report and the wall page, written into lent bytes. Each function writes at a position and returns the position after, as
// those of `writing` do.
#![tactic(auto)]

mod columns;
mod page;

pub use columns::{put_accepted, shown_at};
pub use page::put_page;
