// The entries, thin: each calls one operation and packs its answer. `wom_c` exports them to C, and include/wom.h declares them.
//
// Bits 56 to 63 of an answer are the refusal's number, 0 for none; bits 0 to 55 are the result, or the refusal's index: the word's for 7,
// the capacity or the bits taken for 8, else 0. The word fill's result has the word in bits 0 to 47 and the pulses in bits 48 to 55, read
// file's the device number in bits 0 to 31 and the pages in bits 32 to 55. Every entry is defined for every argument.
#![tactic(auto)]

ghost use Rattle.std.specs.Prelude.{◌≡◌};
ghost use Rattle.answer.specs.Answer.{refusal, refusal_number, refusal_index, answer_of};
ghost use Rattle.answer.specs.Layout.{packed, joined, FaithfulParts};
ghost use Rattle.word.specs.Answer.{encode_answer, decode_answer, fill_answer, capacity_answer};
ghost use Rattle.page.specs.Answer.{write_first_answer, write_first_leaves, read_first_answer, read_first_leaves};
ghost use Rattle.filled.specs.Answer.{fill_page_answer, fill_page_leaves, page_capacity_answer};
ghost use Rattle.second.specs.Answer.{write_second_answer, write_second_leaves, read_second_answer, read_second_leaves};
ghost use Rattle.inspect.specs.Answer.{write_inspect_answer, write_inspect_leaves, read_inspect_answer, read_inspect_leaves};
ghost use Rattle.block.specs.Answer.{place_answer, place_leaves, collect_answer, collect_leaves};
ghost use Rattle.transfer.specs.Answer.{write_file_answer, write_file_leaves};
ghost use Rattle.receive.specs.Read.{read_file_answer, read_file_leaves};

use answer::Refusal;
use receive::Contents;

// A refusal as an answer.
fn pack_refusal(e: Refusal) -> u64
    ensures { result ≡ packed (refusal (refusal_number e) (refusal_index e)) }
{
    (u64::from(e.number()) << 56) + u64::from(e.index())
}

// What an operation gives as an answer.
fn pack(r: Result<u64, Refusal>) -> u64
    ensures { result ≡ packed (answer_of r) }
{
    r.unwrap_or_else(pack_refusal)
}

// The word of a value.
pub fn wom_encode_word(value: u32) -> u64
    ensures { result ≡ packed (encode_answer value) }
{
    word::encode(value)
}

// The value of a word, or 10, 11 or 12.
pub fn wom_decode_word(word: u64) -> u64
    ensures { result ≡ packed (decode_answer word) }
{
    pack(word::decode(word).map(u64::from))
}

// The word fill's answer: the word and the pulses keep apart.
fn pack_filled(r: Result<(u64, u32), Refusal>) -> u64
    requires { FaithfulParts 48 (answer_of r) }
    ensures { result ≡ packed (joined 48 (answer_of r)) }
{
    pack(r.map(|(word, pulses)| word + (u64::from(pulses) << 48)))
}

// The word after the fill and the pulses of the fill, or 10, 11 or 12.
pub fn wom_fill_word(word: u64) -> u64
    ensures { result ≡ packed (joined 48 (fill_answer word)) }
{
    pack_filled(word::fill(word))
}

// The number of data cells of a word after the fill, or 10, 11 or 12.
pub fn wom_word_capacity(word: u64) -> u64
    ensures { result ≡ packed (capacity_answer word) }
{
    pack(word::capacity(word))
}

// Write first: 0, or 1, 2 or 4.
pub fn wom_write_first(page: &mut [u8], first: &[u8]) -> u64
    ensures answer { result ≡ packed (write_first_answer page.old first.now) }
    ensures bytes { page.new ≡ write_first_leaves page.old first.now }
{
    pack(page::write_first(page, first).map(|()| 0))
}

// Read first: 0, or 1, 5, 6, 7 with the word's index, or 3.
pub fn wom_read_first(page: &[u8], out: &mut [u8]) -> u64
    ensures answer { result ≡ packed (read_first_answer page.now out.old) }
    ensures bytes { out.new ≡ read_first_leaves page.now out.old }
{
    pack(page::read_first(page, out).map(|()| 0))
}

// Page capacity: the bits that a first-round page or a filled page offers, or 1, 5, 6, or 7 with the word's index.
pub fn wom_page_capacity(page: &[u8]) -> u64
    ensures { result ≡ packed (page_capacity_answer page.now) }
{
    pack(filled::capacity(page).map(u64::from))
}

// Fill page: the pulses that its words take, or 1, 5, 6, or 7 with the word's index.
pub fn wom_fill_page(page: &mut [u8]) -> u64
    ensures answer { result ≡ packed (fill_page_answer page.old) }
    ensures bytes { page.new ≡ fill_page_leaves page.old }
{
    pack(filled::fill_page(page).map(u64::from))
}

// Write second: 0, or 1, 5, 6, 7 with the word's index, or 8 with the page's capacity.
pub fn wom_write_second(page: &mut [u8], second: &[u8]) -> u64
    ensures answer { result ≡ packed (write_second_answer page.old second.now) }
    ensures bytes { page.new ≡ write_second_leaves page.old second.now }
{
    pack(second::write_second(page, second).map(|()| 0))
}

// Read second: the record's length, or 1, 5, 6, 7 with the word's index, 9 or 3.
pub fn wom_read_second(page: &[u8], out: &mut [u8]) -> u64
    ensures answer { result ≡ packed (read_second_answer page.now out.old) }
    ensures bytes { out.new ≡ read_second_leaves page.now out.old }
{
    pack(second::read_second(page, out).map(u64::from))
}

// Write Inspect: 0, or 1, 5, 6, 7 with the word's index, or 8 with the bits that the walks take.
pub fn wom_write_inspect(page: &mut [u8], second: &[u8]) -> u64
    ensures answer { result ≡ packed (write_inspect_answer page.old second.now) }
    ensures bytes { page.new ≡ write_inspect_leaves page.old second.now }
{
    pack(inspect::write_inspect(page, second).map(|()| 0))
}

// Read Inspect: the record's length, or 1, 5, 6, 7 with the word's index, 9 or 3.
pub fn wom_read_inspect(page: &[u8], out: &mut [u8]) -> u64
    ensures answer { result ≡ packed (read_inspect_answer page.now out.old) }
    ensures bytes { out.new ≡ read_inspect_leaves page.now out.old }
{
    pack(inspect::read_inspect(page, out).map(u64::from))
}

// Write file: the number of bytes written, or 13 or 3.
pub fn wom_write_file(device: u32, pages: &[u8], out: &mut [u8]) -> u64
    ensures answer { result ≡ packed (write_file_answer device pages.now out.old) }
    ensures bytes { out.new ≡ write_file_leaves device pages.now out.old }
{
    pack(transfer::write_file(device, pages, out).map(u64::from))
}

// Read file: the device number and the number of pages, or 14, 15 or 16, which is met first, or 3.
pub fn wom_read_file(file: &[u8], out: &mut [u8]) -> u64
    ensures answer { result ≡ packed (joined 32 (read_file_answer file.now out.old)) }
    ensures bytes { out.new ≡ read_file_leaves file.now out.old }
{
    pack(receive::read_file(file, out).map(|Contents { device, pages }| u64::from(device)
        + (u64::from(pages) << 32)))
}

// Place record: the index of the page that was chosen, or 17 or 18.
pub fn wom_place_record(block: &mut [u8], marks: u16, second: &[u8]) -> u64
    ensures answer { result ≡ packed (place_answer block.old marks second.now) }
    ensures bytes { block.new ≡ place_leaves block.old marks second.now }
{
    pack(block::place_record(block, marks, second).map(u64::from))
}

// Collect block: the number of pages kept, or 17 or 19.
pub fn wom_collect_block(source: &[u8], keep: u16, target: &mut [u8]) -> u64
    ensures answer { result ≡ packed (collect_answer source.now keep target.old) }
    ensures bytes { target.new ≡ collect_leaves source.now keep target.old }
{
    pack(block::collect_block(source, keep, target).map(u64::from))
}
