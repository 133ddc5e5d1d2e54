// One page, of 256 bytes and 44 words or of 512 and 88, filled ahead of a second record: the fill of a first-round page, and the capacity of a
// page before and after it.
//
// Each operation takes byte slices of every length and has no `requires`. It returns its result or the first refusal that applies, in the
// documents' order, and a refusal writes no byte.
#![tactic(auto)]

pub mod check;

ghost use Rattle.std.specs.Prelude.{◌≡◌};
ghost use Rattle.answer.specs.Answer.{answer_of};
ghost use Rattle.filled.specs.Answer.{fill_page_answer, fill_page_leaves, page_capacity_answer};

use answer::Refusal;
use check::check_filled;
use page::check::check_first;
use rows::shape::shape_of;
use rows::words::capacity_of;
use rows::{STATE_FILLED, filling};

// Fill page: turns a first-round page into a filled page, and counts the pulses that its words take.
#[tactic(auto, using(page::proofs::Found::found_inside, page::proofs::Found::found_first, page::proofs::FirstAnswers::first_sized))]
pub fn fill_page(page: &mut [u8]) -> Result<u32, Refusal>
    ensures answer { answer_of result ≡ fill_page_answer page.old }
    ensures bytes { page.new ≡ fill_page_leaves page.old }
{
    let s = shape_of(page.len());
    check_first(page, s)?;
    page[0] = STATE_FILLED;
    Ok(filling::fill_words(page, s.words))
}

// Page capacity: the bits that a first-round page or a filled page offers to a second record. Only in state 03 is a page measured as a filled
// page, with no second fill.
#[tactic(auto, using(page::proofs::Found::found_inside, page::proofs::Found::found_first))]
pub fn capacity(page: &[u8]) -> Result<u32, Refusal>
    ensures { answer_of result ≡ page_capacity_answer page.now }
{
    let s = shape_of(page.len());
    if page.len() != s.size {
        return Err(Refusal::PageLength);
    }
    if page[0] == STATE_FILLED {
        return check_filled(page, s);
    }
    check_first(page, s)?;
    Ok(capacity_of(page, s.words))
}
