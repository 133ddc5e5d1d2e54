// The second record of a page, of 256 bytes and 44 words or of 512 and 88: written over a filled page, and read back.
//
// Each operation takes byte slices of every length and has no `requires`. The first refusal that applies, in the documents' order, is given,
// and a refusal writes no byte.
#![tactic(auto)]

ghost use Rattle.std.specs.Prelude.{◌≡◌};
ghost use Rattle.answer.specs.Answer.{answer_of, done_of};
ghost use Rattle.second.specs.Answer.{write_second_answer, write_second_leaves, read_second_answer, read_second_leaves};

use answer::Refusal;
use cells::{copy_start, zero_from};
use filled::check::check_filled;
use page::check::check_header;
use rows::shape::{put_header, record_length, shape_of};
use rows::{STATE_SECOND, second_round};

// Write second: puts a second record over a filled page. A record of any length is taken: the capacity is divided by 8, so that no length
// is multiplied.
#[tactic(auto, using(page::proofs::Found::found_inside))]
pub fn write_second(page: &mut [u8], second: &[u8]) -> Result<(), Refusal>
    ensures answer { done_of result ≡ write_second_answer page.old second.now }
    ensures bytes { page.new ≡ write_second_leaves page.old second.now }
{
    let s = shape_of(page.len());
    let room = check_filled(page, s)?;
    if ((room / 8) as usize) < second.len() {
        return Err(Refusal::RecordLength(room));
    }
    put_header(page, STATE_SECOND, second.len());
    second_round::put_record(page, second, s.words);
    Ok(())
}

// Read second: puts the second record at the start of the output. Its bits are gathered aside, so that nothing is written before all is
// known to be right.
#[tactic(auto, using(crate::proofs::SecondChecks::found_bounds, crate::proofs::SecondChecks::headed_inside))]
pub fn read_second(page: &[u8], out: &mut [u8]) -> Result<u32, Refusal>
    ensures answer { answer_of result ≡ read_second_answer page.now out.old }
    ensures bytes { out.new ≡ read_second_leaves page.now out.old }
{
    let s = shape_of(page.len());
    check_header(page, s, STATE_SECOND, 23 * s.words / 8)?;
    let mut buffer: [u8; 256] = [0; 256];
    let found = second_round::gather(page, &mut buffer, s.words);
    if found.words < s.words {
        return Err(Refusal::Word(found.words as u32));
    }
    let n = record_length(page);
    if found.cells < 8 * n {
        return Err(Refusal::DataCells);
    }
    if !zero_from(&buffer, n) {
        return Err(Refusal::DataCells);
    }
    if out.len() < n {
        return Err(Refusal::OutputLength);
    }
    copy_start(out, &buffer, n);
    Ok(n as u32)
}
