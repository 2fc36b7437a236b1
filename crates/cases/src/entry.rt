// The entries by name.
ghost use Rattle.std.specs.Prelude.{◌≡◌, ◌≢◌, MatchOption};
ghost use Rattle.cases.specs.Names.{name_of};

#[derive(Clone, Copy)]
pub enum Entry {
    TwoPowers,
    FromTwoPowers,
    ReadLine,
    Starts,
    ColorRanges,
    ReadGrid,
    Transpose,
    Clauses,
    Counts,
    CheckModel,
    Blocking,
    Probes,
    Dimacs,
    Encode,
    Puzzle,
}

// Nothing for another name.
pub fn named(name: &[u8]) -> Option<Entry>
    ensures { MatchOption result ((e : Entry) → name.now ≢ name_of e) (λ e. name.now ≡ name_of e) }
{
    match name {
        b"two_powers" => Some(Entry::TwoPowers),
        b"from_two_powers" => Some(Entry::FromTwoPowers),
        b"read_line" => Some(Entry::ReadLine),
        b"starts" => Some(Entry::Starts),
        b"color_ranges" => Some(Entry::ColorRanges),
        b"read_grid" => Some(Entry::ReadGrid),
        b"transpose" => Some(Entry::Transpose),
        b"clauses" => Some(Entry::Clauses),
        b"counts" => Some(Entry::Counts),
        b"check_model" => Some(Entry::CheckModel),
        b"blocking" => Some(Entry::Blocking),
        b"probes" => Some(Entry::Probes),
        b"dimacs" => Some(Entry::Dimacs),
        b"encode" => Some(Entry::Encode),
        b"puzzle" => Some(Entry::Puzzle),
        _ => None,
    }
}
