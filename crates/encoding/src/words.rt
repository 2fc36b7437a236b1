// The words of a puzzle, from bytes.
ghost use Rattle.std.specs.Prelude.{◌≡◌, ◌+◌, ◌*◌, ◌/◌, ◌≤◌, length};
ghost use Rattle.lists.specs.Wrote.{Wrote};
ghost use Rattle.encoding.specs.Encode.{words_of};

// Low byte first.
fn word(a: u8, b: u8, c: u8, d: u8) -> u32
    ensures { result ≡ a + 256 * b + 65536 * c + 16777216 * d }
{
    u32::from_le_bytes([a, b, c, d])
}

pub fn read_words(bytes: &[u8], out: &mut [u32]) -> usize
    requires { length bytes.now / 4 ≤ length out.old }
    ensures { Wrote (words_of bytes.now) out.old 0 out.new result }
{
    let (words, _) = bytes.as_chunks::<4>();
    for (i, &[a, b, c, d]) in words.iter().enumerate() {
        out[i] = word(a, b, c, d);
    }
    words.len()
}
