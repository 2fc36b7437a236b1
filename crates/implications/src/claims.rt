// The claims that words hold, three words each.
ghost use Rattle.std.specs.Prelude.{◌≡◌, [], ℕ, ◌*◌, ◌/◌, ◌<◌, length, get_or};
ghost use Rattle.probes.specs.Words.{claim_at, claim_words};

// Of each its column, its row and its colour.
pub fn claims(words: &[u32]) -> &[[u32; 3]]
    ensures len { length result.now ≡ length words.now / 3 }
    ensures claims { (j : ℕ) → j < length words.now / 3 → get_or result.now j [] ≡ claim_words (claim_at words.now (3 * j)) }
{
    words.as_chunks::<3>().0
}
