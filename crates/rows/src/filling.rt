// Filled words: the words of a page filled, and the data cells of those that are.
ghost use Rattle.std.specs.Prelude.{◌≡◌, ◌*◌, ◌^◌, ◌≤◌, ◌<◌, length};
ghost use Rattle.window.specs.Words.{start, page_words, put_words};
ghost use Rattle.word.specs.Fill.{is_filled};
ghost use Rattle.rows.specs.Page.{lowest, fill_all, pulses_all, read_all};

use window::{exchange_word, load_word};
use word::second::data_cells;
use word::separators::{fill_word, is_filled, pulses_of};

// The words of a page up to the first that does not pass a test: their number, and that of their data cells.
#[derive(Drop)]
pub struct Counted {
    pub words: usize,
    pub cells: usize,
}

// Fills the n words of a page. Returns the pulses of it, the sum over the words.
pub fn fill_words(page: &mut [u8], n: usize) -> u32
    requires { (start n ≤ 8 * length page.old) × (n < 2 ^ 16) }
    ensures pulses { result ≡ pulses_all (page_words page.old n) }
    ensures bytes { page.new ≡ put_words page.old (fill_all (page_words page.old n)) }
{
    let mut total: u32 = 0;
    for i in 0..n {
        let before = load_word(page, i);
        let after = fill_word(before);
        exchange_word(page, i, before, after);
        total += pulses_of(before, after);
    }
    total
}

// The words of a page, of n, up to the first that is not filled. A filled word is its own separators, so its data cells are counted as it is.
pub fn count_filled(page: &[u8], n: usize) -> Counted
    requires { (start n ≤ 8 * length page.now) × (n < 2 ^ 16) }
    ensures words { result.words ≡ lowest is_filled (page_words page.now n) }
    ensures cells { result.cells ≡ length (read_all (page_words page.now result.words)) }
{
    let mut cells: usize = 0;
    for i in 0..n {
        let word = load_word(page, i);
        if !is_filled(word) {
            return Counted { words: i, cells };
        }
        cells += data_cells(word) as usize;
    }
    Counted { words: n, cells }
}
