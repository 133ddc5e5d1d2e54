// The first record: each four bytes, highest first, are the value of one word.
ghost use Rattle.std.specs.Prelude.{◌≡◌, ◌*◌, ◌^◌, ◌≤◌, ◌<◌, length};
ghost use Rattle.cells.specs.Bytes.{at_start};
ghost use Rattle.window.specs.Words.{start, page_words, put_words};
ghost use Rattle.word.specs.Word.{legal};
ghost use Rattle.rows.specs.Page.{lowest, first_words, first_record};

use cells::{four_bytes, put_bytes};
use window::{load_word, store_word};
use word::series::Weights;

// Puts the n words of a first record into a page.
pub fn write_words(page: &mut [u8], first: &[u8], n: usize)
    requires { (start n ≤ 8 * length page.old) × (length first.now ≡ 4 * n) × (n < 2 ^ 16) }
    ensures { page.new ≡ put_words page.old (first_words n first.now) }
{
    let weights = Weights::new();
    for i in 0..n {
        let value = four_bytes(first, 4 * i) as u32;
        store_word(page, i, weights.encode(value));
    }
}

// Puts the values of a page's n words at the start of an output.
pub fn read_words(page: &[u8], out: &mut [u8], n: usize)
    requires { (start n ≤ 8 * length page.now) × (lowest legal (page_words page.now n) ≡ n) × (4 * n ≤ length out.old) × (n < 2 ^ 16) }
    ensures { out.new ≡ at_start (first_record (page_words page.now n)) out.old }
{
    let weights = Weights::new();
    for i in 0..n {
        put_bytes(out, 4 * i, 4, weights.sum(load_word(page, i)));
    }
}
