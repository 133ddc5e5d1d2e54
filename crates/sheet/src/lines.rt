// The line of a tally. Its parts are put one after another into a line of 128 bytes, which the line of every tally fits; the longest of
// 4,096 pages has 78.
ghost use Rattle.std.specs.Prelude.{◌++◌, ◌≡◌, ◌+◌, ◌≤◌, length};
ghost use Rattle.text.specs.Text.{decimal};
ghost use Rattle.sheet.specs.Sheet.{counts_of, sheet_line};

use crate::Tally;
use text::Line;

// Puts a name and a count.
#[tactic(auto, using(crate::proofs::Sums::room))]
fn put_count(line: &mut Line<128>, name: &[u8], n: u32)
    requires { length line.old + length name.now + 10 ≤ 128 }
    ensures near { length line.new ≤ length line.old + length name.now + 10 }
    ensures bytes { line.new ≡ line.old ++ (name.now ++ decimal n) }
{
    line.text(name);
    line.decimal(u64::from(n));
}

// The counts.
#[tactic(auto, unfolding(crate::specs::Sheet::counts_of))]
fn put_counts(tally: Tally) -> Line<128>
    ensures fits { length result ≤ 101 }
    ensures bytes { result ≡ counts_of tally }
{
    let mut line = Line::new();
    put_count(&mut line, b"pages ", tally.pages);
    put_count(&mut line, b" blank ", tally.blank);
    put_count(&mut line, b" first ", tally.first);
    put_count(&mut line, b" filled ", tally.filled);
    put_count(&mut line, b" second ", tally.second);
    put_count(&mut line, b" bad ", tally.bad);
    line
}

// The line of a tally.
#[tactic(auto, using(crate::proofs::Sums::room), unfolding(crate::specs::Sheet::sheet_line))]
pub fn put_sheet(tally: Tally) -> Line<128>
    ensures fits { length result ≤ 128 }
    ensures bytes { result ≡ sheet_line tally }
{
    let mut line = put_counts(tally);
    line.text(b" gain ");
    line.signed(tally.gain);
    line.text(b"\n");
    line
}
