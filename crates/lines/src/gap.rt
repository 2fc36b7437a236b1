// What may touch in a line: the one place where two blocks' colours meet.
ghost use Rattle.std.specs.Prelude.{◌≡◌, ◌≤◌};
ghost use Rattle.lines.specs.Clue as Clue;

// The cells that a block leaves free after the one before it.
#[tactic(auto, unfolding(crate::specs::Clue::gap))]
pub fn gap(color1: u32, color2: u32) -> u32
    ensures { (result ≡ Clue.gap color1 color2) × (result ≤ 1) }
{
    u32::from(color1 == color2)
}
