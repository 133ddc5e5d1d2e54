// What a listing says of a page: the kind of a piece of input of any length, and the bytes of its line; and the turns of a listing.
#![tactic(auto)]

ghost use Rattle.std.specs.Prelude.{◌≡◌};
ghost use Rattle.report.specs.Lines.{name_of, number_of};

mod kinds;
mod lines;
mod turns;

pub use kinds::kind_of;
pub use lines::put_line;
pub use turns::{first_turn, next_turn, piece_of, put_turn};

// The kind of a piece: a blank page, a first-round page or a filled page with its capacity in bits, a second-round page with its record's
// length in bytes, or anything else with the number of its refusal.
#[derive(Clone, Copy)]
pub enum Kind {
    Blank,
    First(u32),
    Filled(u32),
    Second(u32),
    Bad(u32),
}

impl Kind {
    // The kind as a line names it.
    fn name(self) -> &'static [u8]
        ensures { result.now ≡ name_of self }
    {
        match self {
            Kind::Blank => b"blank",
            Kind::First(_) => b"first",
            Kind::Filled(_) => b"filled",
            Kind::Second(_) => b"second",
            Kind::Bad(_) => b"bad",
        }
    }

    // Its number in a line.
    fn number(self) -> u32
        ensures { result ≡ number_of self }
    {
        match self {
            Kind::Blank => 0,
            Kind::First(n) | Kind::Filled(n) | Kind::Second(n) | Kind::Bad(n) => n,
        }
    }
}
