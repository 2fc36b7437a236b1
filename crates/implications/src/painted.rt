// A board with its colours, and probe words that are accepted on it.
ghost use Rattle.std.specs.Prelude.{◌≡◌, length};
ghost use Rattle.refusals.specs.Verdict.{passed};
ghost use Rattle.numbering.specs.Variables as N;
ghost use Rattle.probes.specs.Probes.{checks_on};

use cells::given::Shown;

// The board of some accepted puzzle, and its colours in order.
#[derive(Clone, Copy)]
pub struct Painted<'a> {
    pub shown: Shown,
    pub palette: &'a [u32],
    pub ghost hues: { shown.hues ≡ length palette.now },
    pub ghost palette_is: { palette.now ≡ N.palette shown.board.colors },
}

// Probe words that were checked on that board.
#[derive(Clone, Copy)]
pub struct Probed<'p, 'w> {
    pub painted: Painted<'p>,
    pub words: &'w [u32],
    pub ghost accepted: { passed ≡ checks_on painted.shown.board.width painted.shown.board.height painted.shown.board.colors words.now },
}
