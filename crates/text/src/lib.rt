// Texts and numbers, one after another: a function puts its bytes into a slice from byte `at` on, and returns the place after them; a
// method puts them at the end of a line.
#![tactic(auto)]

ghost use Rattle.std.specs.Prelude.{◌≡◌, ◌+◌, ◌≤◌, [], ◌++◌, length};
ghost use Rattle.std.proofs.lemmas.List.Edits.{sets};
ghost use Rattle.text.specs.Text.{decimal, signed};

use std::marker::Model;

// Puts a text.
pub fn put_text(line: &mut [u8], at: usize, text: &[u8]) -> usize
    requires { at + length text.now ≤ length line.old }
    ensures place { result ≡ at + length text.now }
    ensures bytes { line.new ≡ sets line.old at text.now }
{
    for i in 0..text.len() {
        line[at + i] = text[i];
    }
    at + text.len()
}

// Puts a number in decimal.
pub fn put_decimal(line: &mut [u8], at: usize, n: u64) -> usize
    requires { at + length (decimal n) ≤ length line.old }
    ensures place { result ≡ at + length (decimal n) }
    ensures bytes { line.new ≡ sets line.old at (decimal n) }
{
    if n < 10 {
        line[at] = (48 + n) as u8;
        return at + 1;
    }
    let end = put_decimal(line, at, n / 10);
    line[end] = (48 + n % 10) as u8;
    end + 1
}

// Puts a signed number in decimal: a minus below 0, no plus.
pub fn put_signed(line: &mut [u8], at: usize, z: i64) -> usize
    requires { at + length (signed z) ≤ length line.old }
    ensures place { result ≡ at + length (signed z) }
    ensures bytes { line.new ≡ sets line.old at (signed z) }
{
    if z >= 0 {
        return put_decimal(line, at, z.unsigned_abs());
    }
    let digits = put_text(line, at, b"-");
    put_decimal(line, digits, z.unsigned_abs())
}

// A line of at most N bytes. A clause sees it as the list of them.
#[derive(Drop)]
pub struct Line<const N: usize> {
    bytes: [u8; N],
    len: usize,
}

impl<const N: usize> Model for Line<N> {
    ghost use Rattle.std.specs.Prelude.{List, ℕ, ◌≤◌, take};

    ghost Value = { List ℕ };

    ghost view = { λ l. take l.len l.bytes };

    ghost invariant = { λ l. l.len ≤ N };
}

impl<const N: usize> Line<N> {
    // A line with nothing in it.
    pub fn new() -> Line<N>
        ensures { result ≡ [] }
    {
        Line {
            bytes: [0; N],
            len: 0,
        }
    }

    // Its bytes.
    pub fn bytes(&self) -> &[u8]
        ensures { result.now ≡ self.now }
    {
        &self.bytes[..self.len]
    }

    // Puts a text.
    pub fn text(&mut self, text: &[u8])
        requires { length self.old + length text.now ≤ N }
        ensures { self.new ≡ self.old ++ text.now }
    {
        self.len = put_text(&mut self.bytes, self.len, text);
    }

    // Puts a number in decimal.
    pub fn decimal(&mut self, n: u64)
        requires { length self.old + length (decimal n) ≤ N }
        ensures { self.new ≡ self.old ++ decimal n }
    {
        self.len = put_decimal(&mut self.bytes, self.len, n);
    }

    // Puts a signed number in decimal: a minus below 0, no plus.
    pub fn signed(&mut self, z: i64)
        requires { length self.old + length (signed z) ≤ N }
        ensures { self.new ≡ self.old ++ signed z }
    {
        self.len = put_signed(&mut self.bytes, self.len, z);
    }
}
