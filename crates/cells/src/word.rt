// A word of a page: 46 cells, held as a number of 64 bits. Cell 0 is the bit worth 2 to the 45th, cell 45 the bit worth 1. A contract sees
// the row of its cells.
ghost use Rattle.std.specs.Prelude.{◌≡◌, ◌^◌, ◌<◌};
ghost use Rattle.cells.specs.Cells.{number, cells};

use std::marker::Model;

#[derive(Clone, Copy)]
pub struct Word {
    bits: u64,
}

impl Model for Word {
    ghost use Rattle.std.specs.Prelude.{Bool, List, ◌^◌, ◌<◌};
    ghost use Rattle.cells.specs.Cells.{number, cells};
    ghost use Rattle.cells.specs.Numbers.{number_cells};
    ghost use mathlib.Core.Path.{ap};

    ghost Value = { List Bool };

    ghost view = { λ w. cells 46 w.bits };

    ghost invariant = { λ w. w.bits < 2 ^ 46 };

    ghost inverse = { λ cs. record { bits = number cs } };

    ghost inverse_ok = { λ w h. ap (λ n. record { bits = n }) (number_cells 46 w.bits h) };
}

impl Word {
    // The word of a number of 46 bits.
    pub fn new(bits: u64) -> Word
        requires { bits < 2 ^ 46 }
        ensures { result ≡ cells 46 bits }
    {
        Word { bits }
    }

    // The number that a word's cells write.
    pub fn bits(self) -> u64
        ensures number { result ≡ number self }
        ensures few { result < 2 ^ 46 }
        ensures cells { cells 46 result ≡ self }
    {
        self.bits
    }
}
