// The second record: its bits put into the data cells of a page's words, and read from them.
ghost use Rattle.std.specs.Prelude.{◌≡◌, ◌+◌, ◌*◌, ◌^◌, ◌≤◌, ◌<◌, length};
ghost use Rattle.cells.specs.Bytes.{bits};
ghost use Rattle.window.specs.Words.{start, page_words, put_cells, put_words};
ghost use Rattle.word.specs.Fill.{well_formed, is_filled};
ghost use Rattle.rows.specs.Page.{lowest, read_all, put_all};

use crate::filling::Counted;
use cells::bits_at;
use window::{load_word, put_cells, store_word};
use word::second::{data_cells, put_bits, read_bits};
use word::separators::{is_well_formed, separators_of};

// Puts a record's bits into the data cells of the n filled words of a page, 0 into the spare ones. A filled word is its own separators.
pub fn put_record(page: &mut [u8], second: &[u8], n: usize)
    requires { (start n ≤ 8 * length page.old) × (lowest is_filled (page_words page.old n) ≡ n) × (n < 2 ^ 16) }
    ensures { page.new ≡ put_words page.old (put_all (page_words page.old n) (bits second.now)) }
{
    let mut at: usize = 0;
    for i in 0..n {
        let filled = load_word(page, i);
        let count = data_cells(filled) as usize;
        store_word(page, i, put_bits(filled, bits_at(second, at, count)));
        at += count;
    }
}

// Puts what the data cells of a page's n words hold into a buffer, word 0 first, up to the first word that is not well formed. A word has at
// most 23, which are put through four bytes of the buffer.
pub fn gather(page: &[u8], buffer: &mut [u8], n: usize) -> Counted
    requires { (start n ≤ 8 * length page.now) × (23 * n + 9 ≤ 8 * length buffer.old) × (n < 2 ^ 16) }
    ensures words { result.words ≡ lowest well_formed (page_words page.now n) }
    ensures cells { result.cells ≡ length (read_all (page_words page.now result.words)) }
    ensures bytes { buffer.new ≡ put_cells buffer.old 0 (read_all (page_words page.now result.words)) }
{
    let mut cells: usize = 0;
    for i in 0..n {
        let word = load_word(page, i);
        if !is_well_formed(word) {
            return Counted { words: i, cells };
        }
        let separators = separators_of(word);
        let count = data_cells(separators) as usize;
        put_cells::<4>(buffer, cells, count, read_bits(word, separators));
        cells += count;
    }
    Counted { words: n, cells }
}
