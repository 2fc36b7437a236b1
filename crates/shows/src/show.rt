// An answer: the number, the place and what a buffer holds.
use cases::case::Case;
use std::fmt::Display;
use std::io;
use std::io::Write;

// What a buffer may hold, and how much of it an entry is lent at most.
pub trait Shown: Copy + Display + Drop + From<u8> + PartialEq {
    const MOST: usize;
}

impl Shown for u8 {
    const MOST: usize = 4200;
}

impl Shown for u32 {
    const MOST: usize = 25600;
}

impl Shown for i32 {
    const MOST: usize = 25600;
}

impl Shown for u64 {
    const MOST: usize = 25600;
}

// The buffer is full of sevens before, so that what stays untouched shows.
pub fn lend<W: Write, T: Shown, F: FnOnce(&mut [T], &mut usize) -> u32>(
    writer: &mut W,
    case: Case<'_>,
    call: F,
) -> io::Result<()>
    requires { F.IsAlwaysCallable call }
{
    let mut lent = vec![in case.alloc; T::from(7); case.room.min(T::MOST)]?;
    let mut place = 0;
    let number = call(&mut lent, &mut place);
    show(writer, number, place, &lent)
}

pub fn show<W: Write, T: Shown>(
    writer: &mut W,
    number: u32,
    place: usize,
    items: &[T],
) -> io::Result<()> {
    write!(writer, " {number} {place}:")?;
    for run in items.chunk_by(|a, b| a == b) {
        show_run(writer, run)?;
    }
    writeln!(writer)
}

// A number that comes four times or more is written once, with how often: `N*M`.
fn show_run<W: Write, T: Shown>(writer: &mut W, run: &[T]) -> io::Result<()> {
    if let [n, _, _, _, ..] = run {
        let times = run.len();
        return write!(writer, " {n}*{times}");
    }
    for n in run {
        write!(writer, " {n}")?;
    }
    Ok(())
}

#[cfg(test)]
mod tests {
    use super::*;
    use std::test::Fail;

    #[test]
    fn lent_and_shown(rt: HostRuntime) -> Result<(), Fail> {
        let mut text: Vec<u8> = Vec::new(rt.alloc());
        let case = Case {
            alloc: rt.alloc(),
            room: 6,
            args: &[],
        };
        lend(&mut text, case, |out: &mut [i32], place| {
            if let [first, ..] = out {
                *first = -1;
            }
            *place = 2;
            3
        })?;
        assert_eq!(rt; &text[..], &b" 3 2: -1 7*5\n"[..]);
        Ok(())
    }
}
