// The walk over the segments of a layout, from the left.

#![tactic(auto)]

pub mod segments;

ghost use Rattle.std.specs.Prelude.{◌≡◌, true, false, ◌*◌, ◌≤◌, length};
ghost use Rattle.code.specs.Symbols.{has_unknown};
ghost use Rattle.code.specs.Limits.{most_letters};
ghost use Rattle.code.specs.Buffers.{over_front};
ghost use Rattle.code.specs.Bounds.{longest};
ghost use Rattle.code.specs.Layout.{Lengths};
ghost use Rattle.code.specs.Order.{order, Taken};
ghost use Rattle.code.specs.Strands.{outcomes, messages_of, told};
ghost use Rattle.code.specs.Verdicts.{verdict_number, verdict_of};
ghost use Rattle.reading.specs.Walks.{Lent, Walked, Found, start_in};

use scan::Next;
use sheet::number_of;
use steps::{Strand, read_segment};
use symbols::{SHORT_LETTERS, as_symbols, has_unknown};

// The number of what is said of a segment by its piece: no edit becomes unknown where an N is among its letters. Pieces of a strand without N are
// not looked at.
fn said_of(number: u32, piece: &[u8], unknown: bool) -> u32
    requires number { number ≡ verdict_number (verdict_of number) }
    requires unknown { unknown ≡ false → has_unknown piece.now ≡ false }
    ensures { result ≡ verdict_number (told (verdict_of number) piece.now) }
{
    if unknown && number == 0 && has_unknown(piece) {
        1
    } else {
        number
    }
}

// Reads the segments of a layout from a strand; `unknown` says whether an N is among its letters.
fn read_segments(
    lengths: &[u16],
    strand: &Strand,
    unknown: bool,
    symbols: &mut [u8],
    verdicts: &mut [u32],
    ends: &mut [u16],
)
    requires lengths { Lengths longest lengths.now }
    requires unknown { unknown ≡ has_unknown strand.now.letters.now }
    requires lent { Lent lengths.now symbols.old verdicts.old ends.old }
    ensures { Walked lengths.now strand.now.letters.now symbols.new verdicts.new ends.new }
{
    // By value: through the reference the walk reads slower.
    let strand = *strand;
    let mut next = Next::At(0, 0);
    let mut from = 0;
    let mut at = 0;
    for (i, &k) in lengths.iter().enumerate() {
        let to = at + k as usize;
        let rest = &lengths[i + 1..];
        let answer = read_segment(&strand, next, i != 0, rest, &mut symbols[at..to]);
        next = answer.next;
        let end = next.place(strand.symbols.len());
        let number = number_of(answer.verdict);
        verdicts[i] = said_of(number, &strand.letters[from..end], unknown);
        ends[i] = end as u16;
        from = end;
        at = to;
    }
}

// Reads the segments of a layout from at most N letters with an N among them.
fn read_beside<const N: usize>(
    lengths: &[u16],
    letters: &[u8],
    symbols: &mut [u8],
    verdicts: &mut [u32],
    ends: &mut [u16],
)
    requires room { (length letters.now ≤ N) × (N ≤ most_letters) }
    requires received { Lengths longest lengths.now × (true ≡ has_unknown letters.now) }
    requires lent { Lent lengths.now symbols.old verdicts.old ends.old }
    ensures { Walked lengths.now letters.now symbols.new verdicts.new ends.new }
{
    let mut s = [0; N];
    as_symbols(letters, &mut s);
    let n = letters.len();
    let strand = Strand {
        symbols: &s[..n],
        letters,
    };
    read_segments(lengths, &strand, true, symbols, verdicts, ends)
}

// Reads the segments of a layout: their messages, the numbers of their verdicts and where each ends. `unknown` says whether an N is among the letters;
// without one they are the symbols themselves.
pub fn read_layout(
    lengths: &[u16],
    letters: &[u8],
    unknown: bool,
    symbols: &mut [u8],
    verdicts: &mut [u32],
    ends: &mut [u16],
)
    requires received { (length letters.now ≤ most_letters) × Lengths longest lengths.now × (unknown ≡ has_unknown letters.now) }
    requires lent { Lent lengths.now symbols.old verdicts.old ends.old }
    ensures { Walked lengths.now letters.now symbols.new verdicts.new ends.new }
{
    if !unknown {
        let strand = Strand {
            symbols: letters,
            letters,
        };
        read_segments(lengths, &strand, false, symbols, verdicts, ends)
    } else if letters.len() <= SHORT_LETTERS {
        read_beside::<SHORT_LETTERS>(lengths, letters, symbols, verdicts, ends)
    } else {
        read_beside::<4096>(lengths, letters, symbols, verdicts, ends)
    }
}

// Reads the segments of an order for the numbers of their verdicts and where each ends; their messages go to the front of `symbols`.
pub fn read_order(
    lengths: &[u16],
    b: u32,
    letters: &[u8],
    unknown: bool,
    symbols: &mut [u8],
    verdicts: &mut [u32],
    ends: &mut [u16],
)
    requires received { (length letters.now ≤ most_letters) × (unknown ≡ has_unknown letters.now) × (4 * b ≤ length symbols.old) }
    requires taken { Taken (order lengths.now b) × (length verdicts.old ≡ length lengths.now) × (length ends.old ≡ length lengths.now) }
    ensures found { Found lengths.now letters.now verdicts.new ends.new }
    ensures messages { symbols.new ≡ over_front (messages_of (outcomes lengths.now letters.now)) symbols.old }
{
    let n = 4 * b as usize;
    read_layout(lengths, letters, unknown, &mut symbols[..n], verdicts, ends)
}

// Where the piece behind the first i starts: where the one before it ends.
pub fn start_of(ends: &[u16], i: usize) -> usize
    requires { i ≤ length ends.now }
    ensures { result ≡ start_in ends.now i }
{
    if i == 0 {
        return 0;
    }
    ends[i - 1] as usize
}
