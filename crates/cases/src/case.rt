// What a stored case asks of its entry.
ghost use Rattle.std.specs.Prelude.{◌≡◌, ◌%◌, IfOk, length, map, min, take};

use std::alloc::{AllocError, Global};

// The length of the buffer that the entry is lent, and its other numbers.
#[derive(Clone, Copy)]
pub struct Case<'a> {
    pub alloc: Global,
    pub room: usize,
    pub args: &'a [u32],
}

// The most bytes of a line, a grid or a model.
const BYTES: usize = 4200;

// The lowest byte of each number into out, as many as it has room for; answers how many.
#[tactic(auto, using(std::proofs::lemmas::List::take_more_set))]
pub fn as_bytes(numbers: &[u32], out: &mut [u8]) -> usize
    ensures count { result ≡ min (length numbers.now) (length out.old) }
    ensures bytes { take result out.new ≡ map (λ n. n % 256) (take result numbers.now) }
{
    let n = numbers.len().min(out.len());
    for (i, number) in numbers[..n].iter().enumerate() {
        out[i] = (number % 256) as u8;
    }
    n
}

// The same of 4,200 numbers at most, in bytes of its own.
pub fn low_bytes(alloc: Global, numbers: &[u32]) -> Result<Vec<u8>, AllocError>
    ensures { IfOk result (λ v. v.items ≡ map (λ n. n % 256) (take 4200 numbers.now)) }
{
    let mut bytes = vec![in alloc; 0; numbers.len().min(BYTES)]?;
    as_bytes(numbers, &mut bytes);
    Ok(bytes)
}

#[cfg(test)]
mod tests {
    use super::*;
    use std::test::Fail;

    #[test]
    fn lowest_bytes(rt: HostRuntime) -> Result<(), Fail> {
        let bytes = low_bytes(rt.alloc(), &[255, 256, 4294967295])?;
        assert_eq!(rt; &bytes[..], &[255, 0, 255][..]);
        Ok(())
    }
}
