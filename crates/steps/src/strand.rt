// What the steps of a segment are given: the strand, and where the segment starts.
ghost use Rattle.std.specs.Prelude.{◌≡◌, ◌<◌};
ghost use Rattle.code.specs.Symbols.{as_symbols};
ghost use Rattle.code.specs.Bounds.{Received};

// Received letters, and the symbols that they are read as.
#[derive(Clone, Copy, Debug, PartialEq, Eq)]
pub struct Strand<'a> {
    pub symbols: &'a [u8],
    pub letters: &'a [u8],
    pub ghost received: { Received symbols.now },
    pub ghost read: { symbols.now ≡ as_symbols letters.now },
}

// The place where a segment starts, whether it has a marker, and the symbol before it.
#[derive(Clone, Copy, Debug, PartialEq, Eq)]
pub struct Start {
    pub at: usize,
    pub marked: bool,
    pub before: u8,
    pub ghost symbol: { before < 4 },
}
