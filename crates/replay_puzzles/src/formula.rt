// The call `dimacs`: its variables, its sections, then clause words, each the 32 bits of a number.
ghost use Rattle.std.specs.Prelude.{◌≤◌, IfOk, vec_len};

use cases::case::Case;
use haafgrim::haafgrim_dimacs;
use shows::show::lend;
use std::alloc::{AllocError, Global};
use std::io;
use std::io::Write;

// The most clause words.
const WORDS: usize = 25600;

pub fn text<W: Write>(writer: &mut W, case: Case<'_>) -> io::Result<()> {
    let [variables, sections, numbers @ ..] = case.args else {
        return Ok(());
    };
    let words = literals(case.alloc, numbers)?;
    lend(writer, case, |out: &mut [u8], place| {
        haafgrim_dimacs(*variables as usize, *sections as usize, &words, out, place)
    })
}

fn literals(alloc: Global, numbers: &[u32]) -> Result<Vec<i32>, AllocError>
    ensures { IfOk result (λ v. vec_len v ≤ 25600) }
{
    numbers
        .iter()
        .take(WORDS)
        .map(|n| n.cast_signed())
        .collect(alloc)
}
