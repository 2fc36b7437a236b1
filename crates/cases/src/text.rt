// Numbers of a text.
ghost use Rattle.std.specs.Prelude.{◌≤◌, length};

// The numbers of a line's words into out, as many as it has room for; answers how many.
pub fn numbers(line: &[u8], out: &mut [u32]) -> usize
    ensures { result ≤ length out.old }
{
    let mut at = 0usize;
    for word in line.split_inclusive(|byte| *byte == b' ') {
        let (n, times) = number_and_times(word);
        let to = at.saturating_add(times as usize).min(out.len());
        out[at..to].fill(n);
        at = to;
    }
    at
}

// A word is a number, or `N*M` for M times the number N.
fn number_and_times(word: &[u8]) -> (u32, u32) {
    match word.iter().position(|byte| *byte == b'*') {
        Some(star) => (signed(&word[..star]), number(&word[star..])),
        None => (signed(word), 1),
    }
}

// A negative number stands for its 32 bits.
fn signed(word: &[u8]) -> u32 {
    let n = number(word);
    if word.starts_with(b"-") {
        n.wrapping_neg()
    } else {
        n
    }
}

// The number that a word's digits are; other bytes are passed over, where `parse` would refuse them.
fn number(word: &[u8]) -> u32 {
    word.iter().fold(0, |n, byte| shifted(n, *byte))
}

// The number with one more digit; what would leave 32 bits stays.
fn shifted(n: u32, digit: u8) -> u32 {
    match digit {
        b'0'..=b'9' => n
            .checked_mul(10)
            .and_then(|tens| tens.checked_add(u32::from(digit - b'0')))
            .unwrap_or(n),
        _ => n,
    }
}

#[cfg(test)]
mod tests {
    use super::*;
    use std::test::Fail;

    #[test]
    fn numbers_of_words(rt: HostRuntime) -> Result<(), Fail> {
        let mut all = [9; 7];
        assert_eq!(rt; numbers(b"3 -1 7*2  x4294967296", &mut all), 6);
        assert_eq!(rt; &all[..], &[3, 4294967295, 7, 7, 0, 429496729, 9][..]);
        assert_eq!(rt; numbers(b"1 2*4294967295 3", &mut all), 7);
        assert_eq!(rt; &all[..], &[1, 2, 2, 2, 2, 2, 2][..]);
        Ok(())
    }
}
