// The words of a page. A word moves whole: the eight bytes that end at its last byte hold it, and a load or a store goes through that window.
// Cells at any place are put through the eight bytes from the one that holds their first on, few of them through four.
#![tactic(auto)]

ghost use Rattle.std.specs.Prelude.{◌≡◌, ◌⊎◌, ◌+◌, ◌*◌, ◌/◌, ◌%◌, ◌^◌, ◌≤◌, ◌<◌, length, take, drop};
ghost use Rattle.cells.specs.Cells.{number, cells};
ghost use Rattle.cells.specs.Bytes.{bits, at_start};
ghost use Rattle.window.specs.Words.{start, word_at, put_cells, put_word};

use cells::{Word, four_bytes, put_bytes};

// The number that eight bytes write, by halves.
fn window(page: &[u8], k: usize) -> u64
    requires { k + 8 ≤ length page.now }
    ensures { result ≡ number (bits (take 8 (drop k page.now))) }
{
    four_bytes(page, k) * 0x1_0000_0000 + four_bytes(page, k + 4)
}

// Where the window of word i starts, in bytes.
fn window_start(i: usize) -> usize
    requires { i < 2 ^ 16 }
    ensures { result ≡ 5 * i + (3 * i + 6) / 4 }
{
    (23 * i + 6) / 4
}

// How many cells of the window come after word i.
fn cells_after(i: usize) -> usize
    requires { i < 2 ^ 61 }
    ensures { result ≡ 2 * ((i + 1) % 4) }
{
    2 * ((i + 1) % 4)
}

// Word i of a page. Two shifts cut it out, and not a remainder: that would show the compiler that the window's first byte is not
// needed, and it would read the other seven one by one.
pub fn load_word(page: &[u8], i: usize) -> Word
    requires { (start i + 46 ≤ 8 * length page.now) × (i < 2 ^ 16) }
    ensures { result ≡ word_at page.now i }
{
    let v = window(page, window_start(i));
    Word::new((v << (18 - cells_after(i))) >> 18)
}

// The count cells from place `at` on, as a number.
pub fn load_cells(page: &[u8], at: usize, count: usize) -> u64
    requires { (at / 8 + 8 ≤ length page.now) × (1 ≤ count) × (count ≤ 56) }
    ensures { result ≡ number (take count (drop at (bits page.now))) }
{
    (window(page, at / 8) << (at % 8)) >> (64 - count)
}

// A number with the count bits above its s lowest replaced by those of v.
fn replaced(old: u64, s: usize, count: usize, v: u64) -> u64
    requires { (s ≤ 63) × (count ≤ 63) × (count + s ≤ 64) × (v < 2 ^ count) }
    ensures { result ≡ old / 2 ^ (count + s) * 2 ^ (count + s) + (v * 2 ^ s + old % 2 ^ s) }
{
    let field = (old >> s) % (1u64 << count);
    old - (field << s) + (v << s)
}

// Puts word i of a page: its 46 cells change and no other.
pub fn store_word(page: &mut [u8], i: usize, word: Word)
    requires { (start i + 46 ≤ 8 * length page.old) × (i < 2 ^ 16) }
    ensures { page.new ≡ put_word page.old i word }
{
    let k = window_start(i);
    let old = window(page, k);
    put_bytes(page, k, 8, replaced(old, cells_after(i), 46, word.bits()));
}

// A number with the 46 bits above its s lowest, which are those of `was`, replaced by those of v: by what the two differ, once.
fn exchanged(old: u64, s: usize, was: u64, v: u64) -> u64
    requires { (s ≤ 18) × (v < 2 ^ 46) × (was ≡ old / 2 ^ s % 2 ^ 46) }
    ensures { result ≡ old / 2 ^ (46 + s) * 2 ^ (46 + s) + (v * 2 ^ s + old % 2 ^ s) }
{
    old.wrapping_add(v.wrapping_sub(was) << s)
}

// Puts word i of a page where it is known what it was; no other cell changes.
pub fn exchange_word(page: &mut [u8], i: usize, was: Word, word: Word)
    requires { (start i + 46 ≤ 8 * length page.old) × (i < 2 ^ 16) × (was ≡ word_at page.old i) }
    ensures { page.new ≡ put_word page.old i word }
{
    let k = window_start(i);
    let old = window(page, k);
    put_bytes(
        page,
        k,
        8,
        exchanged(old, cells_after(i), was.bits(), word.bits()),
    );
}

// Puts the count low bits of v as the cells from place `at` on, through N bytes, eight or four; no other cell changes. Through four, which
// hold 25 at any place, a buffer need be no longer than what is put.
pub fn put_cells<const N: usize>(page: &mut [u8], at: usize, count: usize, v: u64)
    requires { ((N ≡ 8) ⊎ (N ≡ 4)) × (at / 8 + N ≤ length page.old) × (1 ≤ count) × (count + 7 ≤ 8 * N) × (v < 2 ^ count) }
    ensures { page.new ≡ put_cells page.old at (cells count v) }
{
    let k = at / 8;
    let old = if N == 8 {
        window(page, k)
    } else {
        four_bytes(page, k)
    };
    put_bytes(page, k, N, replaced(old, 8 * N - at % 8 - count, count, v));
}

// Copies the first 8 * k bytes, eight at a time. (A copy byte by byte would be compiled to a call of the C library.)
pub fn copy_eights(to: &mut [u8], from: &[u8], k: usize)
    requires { (8 * k ≤ length to.old) × (8 * k ≤ length from.now) × (k < 2 ^ 16) }
    ensures { to.new ≡ at_start (take (8 * k) from.now) to.old }
{
    for j in 0..k {
        put_bytes(to, 8 * j, 8, window(from, 8 * j));
    }
}
