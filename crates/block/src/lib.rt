// A block of 16 pages of 256 bytes (document 02, Change 11): a short record is placed on the page that it fits best, and the pages that are
// kept are collected in a blank block.
//
// Each operation takes byte slices of every length and has no `requires`. The first refusal that applies, in the document's order, is given,
// and a refusal writes no byte. A page is a part of the caller's slice.
#![tactic(auto)]

ghost use Rattle.std.specs.Prelude.{◌≡◌, ◌<◌};
ghost use Rattle.std.proofs.lemmas.List.Edits.{sets};
ghost use Rattle.answer.specs.Answer.{answer_of};
ghost use Rattle.block.specs.Block.{page_at, put_page, marked, offer_at, better, chosen, kept_pages, kept_count};
ghost use Rattle.block.specs.Answer.{both_steps, place_answer, place_leaves, collect_answer, collect_leaves};

use answer::Refusal;
use cells::{copy_page, zero_from};
use filled::{capacity, fill_page};
use rows::STATE_FILLED;
use second::write_second;

// The bytes of a block.
type Block = [u8; 4096];

// The page that is chosen for a record: its index and its capacity.
#[derive(Clone, Copy)]
pub struct Chosen {
    pub index: usize,
    pub room: u32,
}

// Whether page i is marked.
fn is_marked(marks: u16, i: usize) -> bool
    requires { i < 16 }
    ensures { result ≡ marked marks i }
{
    (marks >> i) % 2 == 1
}

// What page i of a block offers to a record: the bits of its capacity, or nothing where it is passed over. Page capacity also measures
// filled pages, which are passed over here.
fn offer_of(block: &Block, marks: u16, i: usize) -> Option<u32>
    requires { i < 16 }
    ensures { result ≡ offer_at block.now marks i }
{
    let a = 256 * i;
    let page = &block[a..a + 256];
    if !is_marked(marks, i) || page[0] == STATE_FILLED {
        return None;
    }
    capacity(page).ok()
}

// The better of what was chosen so far and page i with its offer, for a record of `size` bytes. The capacity is divided by 8, so that no
// length is multiplied.
fn better_of(best: Option<Chosen>, offer: Option<u32>, i: usize, size: usize) -> Option<Chosen>
    ensures { result ≡ better size best offer i }
{
    let Some(room) = offer else {
        return best;
    };
    if ((room / 8) as usize) < size {
        return best;
    }
    match best {
        Some(chosen) if chosen.room <= room => best,
        _ => Some(Chosen { index: i, room }),
    }
}

// The page for a record of `size` bytes.
fn choose(block: &Block, marks: u16, size: usize) -> Option<Chosen>
    ensures { result ≡ chosen size (offer_at block.now marks) 16 }
{
    let mut best = None;
    for i in 0..16 {
        best = better_of(best, offer_of(block, marks, i), i, size);
    }
    best
}

// Fills page i of a block and writes a record over it. Neither step refuses a page that was chosen for the record, as demands/ shows.
fn write_page(block: &mut Block, i: usize, second: &[u8])
    requires { i < 16 }
    ensures { block.new ≡ put_page block.old i (both_steps (page_at block.old i) second.now) }
{
    let a = 256 * i;
    let page = &mut block[a..a + 256];
    let _ = fill_page(page);
    let _ = write_second(page, second);
}

// Place record: puts a short record over the marked first-round page with the least capacity that it fits.
pub fn place_record(block: &mut [u8], marks: u16, second: &[u8]) -> Result<u32, Refusal>
    ensures answer { answer_of result ≡ place_answer block.old marks second.now }
    ensures bytes { block.new ≡ place_leaves block.old marks second.now }
{
    let Some(block) = block.as_mut_array() else {
        return Err(Refusal::BlockLength);
    };
    let page = choose(block, marks, second.len()).ok_or(Refusal::NoPage)?;
    write_page(block, page.index, second);
    Ok(page.index as u32)
}

// Copies the kept pages of a block to the front of a target, and tells how many they are. The loop ends after the last of them: with a fixed
// number of turns it would be compiled to sixteen copies of a page in a row.
fn keep_pages(target: &mut Block, source: &Block, keep: u16) -> usize
    ensures answer { result ≡ kept_count keep 16 }
    ensures bytes { target.new ≡ sets target.old 0 (kept_pages source.now keep 16) }
{
    let mut n = 0;
    for i in 0..16 - keep.leading_zeros() as usize {
        if is_marked(keep, i) {
            copy_page(target, 256 * n, source, 256 * i);
            n += 1;
        }
    }
    n
}

// Collect block: copies the pages that are kept, in their order, to the front of a blank block.
pub fn collect_block(source: &[u8], keep: u16, target: &mut [u8]) -> Result<u32, Refusal>
    ensures answer { answer_of result ≡ collect_answer source.now keep target.old }
    ensures bytes { target.new ≡ collect_leaves source.now keep target.old }
{
    let Some(source) = source.as_array() else {
        return Err(Refusal::BlockLength);
    };
    let Some(target) = target.as_mut_array() else {
        return Err(Refusal::BlockLength);
    };
    if !zero_from(target, 0) {
        return Err(Refusal::TargetNotBlank);
    }
    Ok(keep_pages(target, source, keep) as u32)
}
