// The types of what is answered and said. What they mean is said in specs/.

#![tactic(auto)]

ghost use Rattle.std.specs.Prelude.{◌≡◌, take};
ghost use Rattle.code.specs.Refusals.{number_of, place_of};

// What a byte of a strand is: a letter with its symbol, the letter N, which stands for an unknown one, or no letter.
#[derive(Clone, Copy, Debug, PartialEq, Eq)]
pub enum Letter {
    Symbol(u8),
    Unknown,
    Foreign,
}

// A strand of letters throughout, and whether an N is among them; or where its first foreign byte stands. A Result of a bool and a usize would name
// neither.
#[derive(Clone, Copy, Debug, PartialEq, Eq)]
pub enum Decoded {
    Whole(bool),
    Foreign(usize),
}

// How a received word differs from the sent one.
#[derive(Clone, Copy, Debug, PartialEq, Eq)]
pub enum Link {
    Changed,
    More,
    Less,
}

// Where a layer is mended, and the bit that belongs there.
#[derive(Clone, Copy, Debug, PartialEq, Eq)]
pub struct Fix {
    pub at: usize,
    pub bit: bool,
}

// Why a call is turned down, in the order of the numbers 1 to 9 and 13.
#[derive(Clone, Copy, Debug, PartialEq, Eq)]
pub enum Refusal {
    SegmentLength,
    MessageSize,
    Cut,
    Overlong,
    ShortBuffer,
    ForeignLetter(usize),
    TallyFull,
    Label,
    NoSuchSegment,
    TooLarge,
}

impl Refusal {
    // The place that a refusal names: for a foreign letter its own, from 0; for any other 0.
    pub fn place(self) -> usize
        ensures { result ≡ place_of self }
    {
        if let Refusal::ForeignLetter(i) = self {
            i
        } else {
            0
        }
    }
}

// The number of a refusal, 1 to 9 or 13.
impl From<Refusal> for u8 {
    ghost from_gives = { λ r n. n ≡ number_of r };

    fn from(r: Refusal) -> u8 {
        match r {
            Refusal::SegmentLength => 1,
            Refusal::MessageSize => 2,
            Refusal::Cut => 3,
            Refusal::Overlong => 4,
            Refusal::ShortBuffer => 5,
            Refusal::ForeignLetter(_) => 6,
            Refusal::TallyFull => 7,
            Refusal::Label => 8,
            Refusal::NoSuchSegment => 9,
            Refusal::TooLarge => 13,
        }
    }
}

// How many segments of a reading are clean, corrected and lost.
#[derive(Clone, Copy, Debug, PartialEq, Eq)]
pub struct Counts {
    pub clean: u32,
    pub corrected: u32,
    pub lost: u32,
}

// Where a piece stands: from its first letter to behind its last. A Range can't be copied.
#[derive(Clone, Copy, Debug, PartialEq, Eq)]
pub struct Span {
    pub start: usize,
    pub end: usize,
}

// The order of a label that is read: B, and the layout, which is the first `count` of `lengths`.
#[derive(Clone, Copy, Debug, PartialEq, Eq)]
pub struct Labelled {
    pub b: u32,
    pub count: usize,
    pub lengths: [u16; 64],
}

impl Labelled {
    // The lengths of the layout.
    pub fn lengths(&self) -> &[u16]
        ensures { result.now ≡ take self.now.count self.now.lengths }
    {
        self.lengths.get(..self.count).unwrap_or(&self.lengths)
    }
}

// How many strands were read, and their segments by mark.
#[derive(Clone, Copy, Debug, PartialEq, Eq)]
pub struct Tally {
    pub strands: u32,
    pub counts: Counts,
}

// What strands of one order take: letters to order and bytes of sheets, both for all of them together; and the most starts that the scans of
// one reading try.
#[derive(Clone, Copy, Debug, PartialEq, Eq)]
pub struct Quote {
    pub letters: u32,
    pub bytes: u32,
    pub starts: u32,
}

// How a piece differs from the segment written anew, with its place and symbol.
#[derive(Clone, Copy, Debug, PartialEq, Eq)]
pub enum Edit {
    None,
    Sub(usize, u8),
    Del(usize, u8),
    Ins(usize, u8),
}

// What is said of a segment: read with an edit; read with none from a piece with an N; lost in a step; lost for want of a start.
#[derive(Clone, Copy, Debug, PartialEq, Eq)]
pub enum Verdict {
    Read(Edit),
    Unknown,
    Lost(u8),
    NoStart,
}
