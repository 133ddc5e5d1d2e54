// An answer and how it comes about: document 01's refusals, and in specs/ and proofs/ the answer as a list of checks and its laws. The operations
// of other crates answer by `Result`: what they name as their result, or one refusal.
#![tactic(auto)]

ghost use Rattle.std.specs.Prelude.{◌≡◌};
ghost use Rattle.answer.specs.Answer.{refusal_number, refusal_index};

// Document 01's refusals and those of document 02, in the order of their numbers. Two have an index: the word's, and the capacity or the bits
// that the walks take.
#[derive(Clone, Copy, Debug, PartialEq, Eq)]
pub enum Refusal {
    PageLength,
    DataLength,
    OutputLength,
    NotBlank,
    State,
    Header,
    Word(u32),
    RecordLength(u32),
    DataCells,
    HighBit,
    Neighbours,
    SumTooLarge,
    PagesLength,
    FileCut,
    FileField,
    FileTail,
    BlockLength,
    NoPage,
    TargetNotBlank,
}

impl Refusal {
    // The papers' number of a refusal.
    pub fn number(self) -> u8
        ensures { result ≡ refusal_number self }
    {
        match self {
            Refusal::PageLength => 1,
            Refusal::DataLength => 2,
            Refusal::OutputLength => 3,
            Refusal::NotBlank => 4,
            Refusal::State => 5,
            Refusal::Header => 6,
            Refusal::Word(_) => 7,
            Refusal::RecordLength(_) => 8,
            Refusal::DataCells => 9,
            Refusal::HighBit => 10,
            Refusal::Neighbours => 11,
            Refusal::SumTooLarge => 12,
            Refusal::PagesLength => 13,
            Refusal::FileCut => 14,
            Refusal::FileField => 15,
            Refusal::FileTail => 16,
            Refusal::BlockLength => 17,
            Refusal::NoPage => 18,
            Refusal::TargetNotBlank => 19,
        }
    }

    // Its index, 0 where it has none.
    pub fn index(self) -> u32
        ensures { result ≡ refusal_index self }
    {
        match self {
            Refusal::Word(index) | Refusal::RecordLength(index) => index,
            _ => 0,
        }
    }
}
