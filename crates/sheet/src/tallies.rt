// The gain of a page, and the tally after one more. A sheet has at most 4,096 pages, so no sum leaves its width.
ghost use Rattle.std.specs.Prelude.{◌≡◌, ◌*◌, ◌^◌, ◌<◌, pos, nat_abs, take};
ghost use Rattle.sheet.specs.Sheet.{gain_of, no_pages, tallied, turn_tally, Tallies};

use crate::Tally;
use report::{Kind, kind_of, piece_of};

// The gain of a page that was written once: the bits of its record less those of a page.
const FIRST_GAIN: i64 = 1408 - 2048;

// The bits of a record.
fn bits_of(length: u32) -> i64
    ensures bits { result ≡ pos (8 * length) }
    ensures near { nat_abs result < 2 ^ 35 }
{
    8 * i64::from(length)
}

// The gain of a page by its kind, in bits.
fn gain_of(kind: Kind) -> i64
    ensures gain { result ≡ gain_of kind }
    ensures near { nat_abs result < 2 ^ 36 }
{
    match kind {
        Kind::First(_) | Kind::Filled(_) => FIRST_GAIN,
        Kind::Second(length) => FIRST_GAIN + bits_of(length),
        Kind::Blank | Kind::Bad(_) => 0,
    }
}

// The tally of no pages.
pub fn no_pages() -> Tally
    ensures { result ≡ no_pages }
{
    Tally::default()
}

// The tally after one more page, by its kind.
#[tactic(auto, using(crate::proofs::Tallying::tally_fits))]
fn tally_kind(mut tally: Tally, kind: Kind) -> Tally
    requires { Tallies 4095 tally }
    ensures { result ≡ tallied tally kind }
{
    tally.pages += 1;
    tally.gain += gain_of(kind);
    match kind {
        Kind::Blank => tally.blank += 1,
        Kind::First(_) => tally.first += 1,
        Kind::Filled(_) => tally.filled += 1,
        Kind::Second(_) => tally.second += 1,
        Kind::Bad(_) => tally.bad += 1,
    }
    tally
}

// The tally after the turn of a page: the first n bytes of the page's buffer are those that came. Where none did, there was no page.
#[tactic(auto, using(crate::proofs::Tallying::turn_none, crate::proofs::Tallying::turn_some))]
pub fn tally_piece(tally: Tally, page: &[u8], n: usize) -> Tally
    requires { Tallies 4095 tally }
    ensures { result ≡ turn_tally tally (take n page.now) }
{
    let piece = piece_of(page, n);
    if piece.is_empty() {
        return tally;
    }
    tally_kind(tally, kind_of(piece))
}
