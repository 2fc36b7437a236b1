// The readers of probe words.
// A count is any word: one that promises more than is there ends at the number of words.
ghost use Rattle.std.specs.Prelude.{◌≡◌, ◌+◌, ◌^◌, ◌<◌, length};
ghost use Rattle.refusals.specs.Told.{checked, told};
ghost use Rattle.refusals.specs.Walk.{outcome};
ghost use Rattle.probes.specs.Probes.{Claim, Probe, read_claim, listed, is_color, read_probe, checks_on};
ghost use Rattle.probes.specs.Onward.{claim_onward, probe_onward};

use bits::mask::has;
use lists::wide;
use refusals::Refusal;
use walks::{Reads, read_times};

#[derive(Clone, Copy)]
struct Claim {
    width: usize,
    height: usize,
}

impl Reads for Claim {
    type Word = u32;

    ghost item = { Claim };

    ghost walk = { λ c. read_claim c.width c.height };

    ghost onward = { λ c. claim_onward c.width c.height };

    fn read(self, part: &[u32], at: usize) -> Result<usize, Refusal> {
        let Some((&x, rest)) = part.split_first() else {
            return Err(Refusal::WordMissing(at));
        };
        if self.width <= wide(x) {
            return Err(Refusal::OffGrid(at));
        }
        let Some((&y, rest)) = rest.split_first() else {
            return Err(Refusal::WordMissing(at + 1));
        };
        if self.height <= wide(y) {
            return Err(Refusal::OffGrid(at + 1));
        }
        let Some((&color, _)) = rest.split_first() else {
            return Err(Refusal::WordMissing(at + 2));
        };
        if 31 < color {
            return Err(Refusal::ColorTooLarge(at + 2));
        }
        Ok(at + 3)
    }
}

// A count, which any word is, and as many after it.
fn read_listed<R: Reads<Word = u32>>(of: R, part: &[u32], at: usize) -> Result<usize, Refusal>
    requires { at + length part.now < 2 ^ 63 }
    ensures { told result ≡ outcome (listed (R.walk of) at part.now) }
{
    let Some((&n, rest)) = part.split_first() else {
        return Err(Refusal::WordMissing(at));
    };
    read_times(of, wide(n), rest, at + 1)
}

// Blank, or a colour of the set.
fn is_color(colors: u32, color: u32) -> bool
    ensures { result ≡ is_color colors color }
{
    color == 0 || has(colors, color)
}

#[derive(Clone, Copy)]
struct Probe {
    claim: Claim,
    colors: u32,
}

impl Reads for Probe {
    type Word = u32;

    ghost item = { Probe };

    ghost walk = { λ p. read_probe p.claim.width p.claim.height p.colors };

    ghost onward = { λ p. probe_onward p.claim.width p.claim.height p.colors };

    fn read(self, part: &[u32], at: usize) -> Result<usize, Refusal> {
        self.claim.read(part, at)?;
        if !is_color(self.colors, part[2]) {
            return Err(Refusal::ProbeColor(at + 2));
        }
        read_listed(self.claim, &part[3..], at + 3)
    }
}

// Document 01's order: 20, the walk, 11.
pub fn check_probes(width: usize, height: usize, colors: u32, probe: &[u32]) -> Result<(), Refusal>
    ensures { checked result ≡ checks_on width height colors probe.now }
{
    if 1_048_576 < probe.len() {
        return Err(Refusal::TooManyProbeWords(probe.len()));
    }
    let claim = Claim { width, height };
    let end = read_listed(Probe { claim, colors }, probe, 0)?;
    if end < probe.len() {
        return Err(Refusal::LeftOver(end));
    }
    Ok(())
}
