// The words of a page, one after another.
ghost use Rattle.std.specs.Prelude.{◌≡◌, ◌*◌, ◌^◌, ◌≤◌, ◌<◌, length};
ghost use Rattle.window.specs.Words.{start, page_words};
ghost use Rattle.word.specs.Word.{legal};
ghost use Rattle.rows.specs.Page.{lowest, capacity_all};

use window::load_word;
use word::second::data_cells;
use word::separators::fill_word;
use word::series::is_legal;

// The lowest index of a word, of n, that is not legal; where all are legal, n.
pub fn first_illegal(page: &[u8], n: usize) -> usize
    requires { (start n ≤ 8 * length page.now) × (n < 2 ^ 16) }
    ensures { result ≡ lowest legal (page_words page.now n) }
{
    for i in 0..n {
        if !is_legal(load_word(page, i).bits()) {
            return i;
        }
    }
    n
}

// The sum of the capacities of a page's n words.
pub fn capacity_of(page: &[u8], n: usize) -> u32
    requires { (start n ≤ 8 * length page.now) × (lowest legal (page_words page.now n) ≡ n) × (n < 2 ^ 16) }
    ensures { result ≡ capacity_all (page_words page.now n) }
{
    let mut total: u32 = 0;
    for i in 0..n {
        total += data_cells(fill_word(load_word(page, i))) as u32;
    }
    total
}
