// The gain sheet: standard input as pages, one after another, and one line on standard output: the pages, those of each kind, and the gain
// of all.
//
// Which turn comes after which is the listing's (`report`), what is counted in one and the bytes of the line are the library's (`sheet`).
// Here is what a program adds: the buffer, and the calls that read and write.
#![tactic(auto)]

ghost use Rattle.std.specs.Prelude.{List, ◌≡◌, ℕ, replicate};
ghost use Rattle.report.specs.Listing.{pieces_of, first_turn};
ghost use Rattle.sheet.specs.Sheet.{tally_of, sheet_of};

use sheet::Tally;

// Refills the buffer and counts what came, turn after turn from the first, until there is none: the tally of an input.
fn tally_pages(rt: &HostRuntime, page: &mut [u8], first: Option<u32>) -> Tally
    requires zeros { page.old ≡ replicate 256 0 }
    requires from { first ≡ first_turn }
    ensures { (l : List ℕ) × (result ≡ tally_of (pieces_of l)) }
{
    let mut tally = sheet::no_pages();
    let mut turn = first;
    while let Some(index) = turn {
        let n = streams::read_full(&mut rt.stdin(), page);
        tally = sheet::tally_piece(tally, page, n);
        turn = report::next_turn(index, n, true);
    }
    tally
}

// Writes the sheet of an input; whether all of it was written.
fn write_line(rt: &HostRuntime, line: &[u8]) -> bool
    requires { (l : List ℕ) × (line.now ≡ sheet_of l) }
{
    streams::write_whole(&mut rt.stdout(), line)
}

// Puts the line of an input's tally together and writes it.
fn write_sheet(rt: &HostRuntime, tally: Tally) -> bool
    requires { (l : List ℕ) × (tally ≡ tally_of (pieces_of l)) }
{
    write_line(rt, sheet::put_sheet(tally).bytes())
}

fn main(rt: HostRuntime) {
    let mut page: [u8; 256] = [0; 256];
    let tally = tally_pages(&rt, &mut page, report::first_turn());
    write_sheet(&rt, tally);
}
