// The shape of a page, found from its length, and the bytes of a page that are not in its words.
ghost use Rattle.std.specs.Prelude.{◌≡◌, ◌^◌, ◌≤◌, ◌<◌, length};
ghost use Rattle.cells.specs.Bytes.{zeros};
ghost use Rattle.rows.specs.Page.{page256, shape_for, record_length, tail, bad_header, with_header};

// A shape of page: its size in bytes, the number of its words, and the bytes of its first record. The definitions use this very record.
#[derive(Clone, Copy)]
pub struct Shape {
    pub words: usize,
    pub size: usize,
    pub first: usize,
}

// Document 01's page.
pub fn small_page() -> Shape
    ensures { result ≡ page256 }
{
    Shape {
        words: 44,
        size: 256,
        first: 176,
    }
}

// The shape that a page of so many bytes is held to. One of neither size gets the small page's, whose size it does not have.
#[tactic(auto, unfolding(crate::specs::Page::shape_for))]
pub fn shape_of(length: usize) -> Shape
    ensures { result ≡ shape_for length }
{
    if length == 512 {
        return Shape {
            words: 88,
            size: 512,
            first: 352,
        };
    }
    small_page()
}

// Whether every byte after a page's n words is 0. There are at most three, which are looked at one by one: a sum of many at once would take
// vector registers in every entry that asks for it.
fn tail_zero(page: &[u8], n: usize) -> bool
    requires { n < 2 ^ 16 }
    ensures { result ≡ zeros (tail n page.now) }
{
    for i in 3 + 46 * n / 8..page.len() {
        if page[i] != 0 {
            return false;
        }
    }
    true
}

// The length of a page's second record: byte 1 low, byte 2 high.
pub fn record_length(page: &[u8]) -> usize
    requires { 3 ≤ length page.now }
    ensures { result ≡ record_length page.now }
{
    page[1] as usize + 256 * (page[2] as usize)
}

// Puts a page's state and the length of its second record.
pub fn put_header(page: &mut [u8], state: u8, n: usize)
    requires { (3 ≤ length page.old) × (n < 2 ^ 16) }
    ensures { page.new ≡ with_header state n page.old }
{
    page[0] = state;
    page[1] = (n % 256) as u8;
    page[2] = (n / 256) as u8;
}

// Refusal 6 of a page of n words with a second record of at most `most` bytes; without one, `most` is 0.
#[tactic(auto, unfolding(crate::specs::Page::bad_header))]
pub fn bad_header(page: &[u8], n: usize, most: usize) -> bool
    requires { (3 ≤ length page.now) × (n < 2 ^ 16) }
    ensures { result ≡ bad_header most n page.now }
{
    most < record_length(page) || !tail_zero(page, n)
}
