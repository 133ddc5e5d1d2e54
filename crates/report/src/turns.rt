// The turns of a listing. A turn is the index of its page, until there is none: what is written in it, and which turn comes after it.
ghost use Rattle.std.specs.Prelude.{◌≡◌, ◌≤◌, length, take};
ghost use Rattle.report.specs.Listing.{turn_line, first_turn, next_turn};

use crate::{kind_of, put_line};
use text::Line;

// The first n bytes of a buffer: all of them where it has no more.
pub fn piece_of(page: &[u8], n: usize) -> &[u8]
    ensures { result.now ≡ take n page.now }
{
    &page[..n.min(page.len())]
}

// The turn that a listing starts with: that of page 0.
pub fn first_turn() -> Option<u32>
    ensures { result ≡ first_turn }
{
    Some(0)
}

// What is written in a page's turn: the line of the first n bytes of the page's buffer, those that came; nothing where none did.
#[tactic(auto, using(crate::proofs::Turning::turn_none, crate::proofs::Turning::turn_some))]
pub fn put_turn(index: u32, page: &[u8], n: usize) -> Line<32>
    ensures fits { length result ≤ 32 }
    ensures bytes { result ≡ turn_line index (take n page.now) }
{
    let piece = piece_of(page, n);
    if piece.is_empty() {
        return Line::new();
    }
    put_line(index, kind_of(piece))
}

// The turn after that of a page of which n bytes came. There is none where the line could not be written, after a piece shorter than a
// page, and after 4,096 pages.
#[tactic(auto, unfolding(crate::specs::Listing::next_turn))]
pub fn next_turn(index: u32, n: usize, is_written: bool) -> Option<u32>
    ensures { result ≡ next_turn index n is_written }
{
    if is_written && n == 256 && index < 4095 {
        return Some(index + 1);
    }
    None
}
