// The line of a page. Its parts are put one after another into a line of 32 bytes; the longest has 29.
ghost use Rattle.std.specs.Prelude.{◌≡◌, ◌≤◌, length};
ghost use Rattle.report.specs.Lines.{line_of};

use crate::Kind;
use text::Line;

// The line of a page.
#[tactic(auto, using(crate::proofs::Names::parts), unfolding(crate::specs::Lines::line_of))]
pub fn put_line(index: u32, kind: Kind) -> Line<32>
    ensures fits { length result ≤ 32 }
    ensures bytes { result ≡ line_of index kind }
{
    let mut line = Line::new();
    line.decimal(u64::from(index));
    line.text(b" ");
    line.text(kind.name());
    line.text(b" ");
    line.decimal(u64::from(kind.number()));
    line.text(b"\n");
    line
}
