// What every call answers: acceptance with how many words or bytes it wrote, or one refusal with its place.
#![tactic(auto)]

ghost use Rattle.std.specs.Prelude.{◌≡◌};
ghost use Rattle.refusals.specs.Told.{refusal};
ghost use Rattle.refusals.specs.Verdict.{number, place};

// A variant for each number of document 01, in its order, with the place.
#[derive(Clone, Copy, Debug, PartialEq, Eq)]
pub enum Refusal {
    WordMissing(usize),
    Size(usize),
    TooManyBlocks(usize),
    EmptyBlock(usize),
    BlockColor(usize),
    LineTooShort(usize),
    CellCount(usize),
    EmptyMask(usize),
    ColumnColor(usize),
    SolvedColor(usize),
    LeftOver(usize),
    OutputTooShort(usize),
    ModelLength(usize),
    ModelByte(usize),
    FalseClause(usize),
    TwoColors(usize),
    OffGrid(usize),
    ColorTooLarge(usize),
    ProbeColor(usize),
    TooManyProbeWords(usize),
    DimacsLimit(usize),
    ClauseWords(usize),
    ProgramInput(usize),
}

impl Refusal {
    pub fn number(self) -> u32
        ensures { result ≡ number (refusal self) }
    {
        match self {
            Refusal::WordMissing(_) => 1,
            Refusal::Size(_) => 2,
            Refusal::TooManyBlocks(_) => 3,
            Refusal::EmptyBlock(_) => 4,
            Refusal::BlockColor(_) => 5,
            Refusal::LineTooShort(_) => 6,
            Refusal::CellCount(_) => 7,
            Refusal::EmptyMask(_) => 8,
            Refusal::ColumnColor(_) => 9,
            Refusal::SolvedColor(_) => 10,
            Refusal::LeftOver(_) => 11,
            Refusal::OutputTooShort(_) => 12,
            Refusal::ModelLength(_) => 13,
            Refusal::ModelByte(_) => 14,
            Refusal::FalseClause(_) => 15,
            Refusal::TwoColors(_) => 16,
            Refusal::OffGrid(_) => 17,
            Refusal::ColorTooLarge(_) => 18,
            Refusal::ProbeColor(_) => 19,
            Refusal::TooManyProbeWords(_) => 20,
            Refusal::DimacsLimit(_) => 21,
            Refusal::ClauseWords(_) => 22,
            Refusal::ProgramInput(_) => 23,
        }
    }

    pub fn place(self) -> usize
        ensures { result ≡ place (refusal self) }
    {
        match self {
            Refusal::WordMissing(p)
            | Refusal::Size(p)
            | Refusal::TooManyBlocks(p)
            | Refusal::EmptyBlock(p)
            | Refusal::BlockColor(p)
            | Refusal::LineTooShort(p)
            | Refusal::CellCount(p)
            | Refusal::EmptyMask(p)
            | Refusal::ColumnColor(p)
            | Refusal::SolvedColor(p)
            | Refusal::LeftOver(p)
            | Refusal::OutputTooShort(p)
            | Refusal::ModelLength(p)
            | Refusal::ModelByte(p)
            | Refusal::FalseClause(p)
            | Refusal::TwoColors(p)
            | Refusal::OffGrid(p)
            | Refusal::ColorTooLarge(p)
            | Refusal::ProbeColor(p)
            | Refusal::TooManyProbeWords(p)
            | Refusal::DimacsLimit(p)
            | Refusal::ClauseWords(p)
            | Refusal::ProgramInput(p) => p,
        }
    }
}
