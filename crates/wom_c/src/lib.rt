// The entry points for C: each is the function of `wom` with its name and its contract, and only calls it. include/wom.h declares them, and a
// slice is a pointer and then a length there. What an answer's bits are is told in `wom`.
#![tactic(auto)]

ghost use Rattle.std.specs.Prelude.{◌≡◌};
ghost use Rattle.answer.specs.Layout.{packed, joined};
ghost use Rattle.word.specs.Answer.{encode_answer, decode_answer, fill_answer, capacity_answer};
ghost use Rattle.page.specs.Answer.{write_first_answer, write_first_leaves, read_first_answer, read_first_leaves};
ghost use Rattle.filled.specs.Answer.{fill_page_answer, fill_page_leaves, page_capacity_answer};
ghost use Rattle.second.specs.Answer.{write_second_answer, write_second_leaves, read_second_answer, read_second_leaves};
ghost use Rattle.inspect.specs.Answer.{write_inspect_answer, write_inspect_leaves, read_inspect_answer, read_inspect_leaves};
ghost use Rattle.block.specs.Answer.{place_answer, place_leaves, collect_answer, collect_leaves};
ghost use Rattle.transfer.specs.Answer.{write_file_answer, write_file_leaves};
ghost use Rattle.receive.specs.Read.{read_file_answer, read_file_leaves};

// The word of a value.
#[unsafe(no_mangle)]
pub extern "C" fn wom_encode_word(value: u32) -> u64
    ensures { result ≡ packed (encode_answer value) }
{
    wom::wom_encode_word(value)
}

// The value of a word, or 10, 11 or 12.
#[unsafe(no_mangle)]
pub extern "C" fn wom_decode_word(word: u64) -> u64
    ensures { result ≡ packed (decode_answer word) }
{
    wom::wom_decode_word(word)
}

// The word after the fill and the pulses of the fill, or 10, 11 or 12.
#[unsafe(no_mangle)]
pub extern "C" fn wom_fill_word(word: u64) -> u64
    ensures { result ≡ packed (joined 48 (fill_answer word)) }
{
    wom::wom_fill_word(word)
}

// The number of data cells of a word after the fill, or 10, 11 or 12.
#[unsafe(no_mangle)]
pub extern "C" fn wom_word_capacity(word: u64) -> u64
    ensures { result ≡ packed (capacity_answer word) }
{
    wom::wom_word_capacity(word)
}

// Write first: 0, or 1, 2 or 4.
#[unsafe(no_mangle)]
pub extern "C" fn wom_write_first(page: &mut [u8], first: &[u8]) -> u64
    ensures answer { result ≡ packed (write_first_answer page.old first.now) }
    ensures bytes { page.new ≡ write_first_leaves page.old first.now }
{
    wom::wom_write_first(page, first)
}

// Read first: 0, or 1, 5, 6, 7 with the word's index, or 3.
#[unsafe(no_mangle)]
pub extern "C" fn wom_read_first(page: &[u8], out: &mut [u8]) -> u64
    ensures answer { result ≡ packed (read_first_answer page.now out.old) }
    ensures bytes { out.new ≡ read_first_leaves page.now out.old }
{
    wom::wom_read_first(page, out)
}

// Page capacity: the bits that a first-round page or a filled page offers, or 1, 5, 6, or 7 with the word's index.
#[unsafe(no_mangle)]
pub extern "C" fn wom_page_capacity(page: &[u8]) -> u64
    ensures { result ≡ packed (page_capacity_answer page.now) }
{
    wom::wom_page_capacity(page)
}

// Fill page: the pulses that its words take, or 1, 5, 6, or 7 with the word's index.
#[unsafe(no_mangle)]
pub extern "C" fn wom_fill_page(page: &mut [u8]) -> u64
    ensures answer { result ≡ packed (fill_page_answer page.old) }
    ensures bytes { page.new ≡ fill_page_leaves page.old }
{
    wom::wom_fill_page(page)
}

// Write second: 0, or 1, 5, 6, 7 with the word's index, or 8 with the page's capacity.
#[unsafe(no_mangle)]
pub extern "C" fn wom_write_second(page: &mut [u8], second: &[u8]) -> u64
    ensures answer { result ≡ packed (write_second_answer page.old second.now) }
    ensures bytes { page.new ≡ write_second_leaves page.old second.now }
{
    wom::wom_write_second(page, second)
}

// Read second: the record's length, or 1, 5, 6, 7 with the word's index, 9 or 3.
#[unsafe(no_mangle)]
pub extern "C" fn wom_read_second(page: &[u8], out: &mut [u8]) -> u64
    ensures answer { result ≡ packed (read_second_answer page.now out.old) }
    ensures bytes { out.new ≡ read_second_leaves page.now out.old }
{
    wom::wom_read_second(page, out)
}

// Write Inspect: 0, or 1, 5, 6, 7 with the word's index, or 8 with the bits that the walks take.
#[unsafe(no_mangle)]
pub extern "C" fn wom_write_inspect(page: &mut [u8], second: &[u8]) -> u64
    ensures answer { result ≡ packed (write_inspect_answer page.old second.now) }
    ensures bytes { page.new ≡ write_inspect_leaves page.old second.now }
{
    wom::wom_write_inspect(page, second)
}

// Read Inspect: the record's length, or 1, 5, 6, 7 with the word's index, 9 or 3.
#[unsafe(no_mangle)]
pub extern "C" fn wom_read_inspect(page: &[u8], out: &mut [u8]) -> u64
    ensures answer { result ≡ packed (read_inspect_answer page.now out.old) }
    ensures bytes { out.new ≡ read_inspect_leaves page.now out.old }
{
    wom::wom_read_inspect(page, out)
}

// Write file: the number of bytes written, or 13 or 3.
#[unsafe(no_mangle)]
pub extern "C" fn wom_write_file(device: u32, pages: &[u8], out: &mut [u8]) -> u64
    ensures answer { result ≡ packed (write_file_answer device pages.now out.old) }
    ensures bytes { out.new ≡ write_file_leaves device pages.now out.old }
{
    wom::wom_write_file(device, pages, out)
}

// Read file: the device number and the number of pages, or 14, 15 or 16, which is met first, or 3.
#[unsafe(no_mangle)]
pub extern "C" fn wom_read_file(file: &[u8], out: &mut [u8]) -> u64
    ensures answer { result ≡ packed (joined 32 (read_file_answer file.now out.old)) }
    ensures bytes { out.new ≡ read_file_leaves file.now out.old }
{
    wom::wom_read_file(file, out)
}

// Place record: the index of the page that was chosen, or 17 or 18.
#[unsafe(no_mangle)]
pub extern "C" fn wom_place_record(block: &mut [u8], marks: u16, second: &[u8]) -> u64
    ensures answer { result ≡ packed (place_answer block.old marks second.now) }
    ensures bytes { block.new ≡ place_leaves block.old marks second.now }
{
    wom::wom_place_record(block, marks, second)
}

// Collect block: the number of pages kept, or 17 or 19.
#[unsafe(no_mangle)]
pub extern "C" fn wom_collect_block(source: &[u8], keep: u16, target: &mut [u8]) -> u64
    ensures answer { result ≡ packed (collect_answer source.now keep target.old) }
    ensures bytes { target.new ≡ collect_leaves source.now keep target.old }
{
    wom::wom_collect_block(source, keep, target)
}
