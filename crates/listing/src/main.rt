// The listing: standard input as pages, one after another, and a line on standard output for each: its index, its kind and a number.
//
// What is written in a turn and which turn comes after it is the library's (`report`). Here is what a program adds: the buffer, and the
// calls that read and write.
#![tactic(auto)]

ghost use Rattle.std.specs.Prelude.{Bool, ◌≡◌, replicate, take};
ghost use Rattle.report.specs.Listing.{turn_line, first_turn, next_turn};

// Writes the line of a page of which n bytes came; whether all of it was written.
fn write_line(rt: &HostRuntime, index: u32, page: &[u8], n: usize, line: &[u8]) -> bool
    requires { line.now ≡ turn_line index (take n page.now) }
{
    streams::write_whole(&mut rt.stdout(), line)
}

// The turn of a page of which n bytes came, and the turn after it.
fn list_page(rt: &HostRuntime, index: u32, page: &[u8], n: usize) -> Option<u32>
    ensures { (written : Bool) × (result ≡ next_turn index n written) }
{
    let line = report::put_turn(index, page, n);
    report::next_turn(index, n, write_line(rt, index, page, n, line.bytes()))
}

// Refills the buffer and lists what came, turn after turn from the first, until there is none.
fn list_pages(rt: &HostRuntime, page: &mut [u8], first: Option<u32>) -> Option<u32>
    requires zeros { page.old ≡ replicate 256 0 }
    requires from { first ≡ first_turn }
    ensures { result ≡ None }
{
    let mut turn = first;
    while let Some(index) = turn {
        let n = streams::read_full(&mut rt.stdin(), page);
        turn = list_page(rt, index, page, n);
    }
    turn
}

fn main(rt: HostRuntime) {
    let mut page: [u8; 256] = [0; 256];
    list_pages(&rt, &mut page, report::first_turn());
}
