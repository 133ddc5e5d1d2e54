// The gain sheet: what writing pages twice brings, in bits (document 02, Change 5). The gain of a page by its kind, the tally of the pages
// of a listing, and the bytes of its line.
#![tactic(auto)]

mod lines;
mod tallies;

pub use lines::put_sheet;
pub use tallies::{no_pages, tally_piece};

// What was counted: the pages, those of each kind, and the gain of all.
#[derive(Clone, Copy, Default)]
pub struct Tally {
    pub pages: u32,
    pub blank: u32,
    pub first: u32,
    pub filled: u32,
    pub second: u32,
    pub bad: u32,
    pub gain: i64,
}
