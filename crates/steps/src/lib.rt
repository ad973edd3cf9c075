// Steps 1 to 10 of a segment.

#![tactic(auto)]

mod from_message;
mod step_10;
mod step_8;
mod step_9;
mod strand;

ghost use Rattle.std.specs.Prelude.{◌≡◌, true, false, ◌∷◌, ◌+◌, ◌<◌, ◌≤◌, length, take, drop, replicate};
ghost use Rattle.code.specs.Bounds.{longest, reach, Length, Received};
ghost use Rattle.code.specs.Layers.{width};
ghost use Rattle.code.specs.Segment.{data_at};
ghost use Rattle.code.specs.Layout.{Lengths};
ghost use Rattle.code.specs.Reading as R;
ghost use Rattle.layers.specs.LayerSums.{sums_of};
ghost use Rattle.scan.specs.Scans.{Known};
ghost use Rattle.steps.specs.Steps.{standing_answer, unfound_answer, is_whole, AtStart, CleanAt, Marked, Stepped, SteppedFrom};

use clean::is_clean;
use code::{Edit, Verdict};
use copying::{copy, put_zeros};
use from_message::finished;
use layers::Summed;
use message::{find_separator, read_hit, read_whole};
use places::comparisons::two_equal;
use scan::Next;
use segment::data_at;
use step_10::lost;
pub use strand::{Start, Strand};
use tail::{tail_given, tail_with};

// What is said of a segment, and where the next one starts.
#[derive(Clone, Copy, Debug, PartialEq, Eq)]
pub struct Answer {
    pub verdict: Verdict,
    pub next: Next,
}

// Step 1: the marker of the segment at a start is whole.
fn is_whole(strand: &Strand, start: Start) -> bool
    requires { start.at < reach }
    ensures { result ≡ is_whole strand.now start }
{
    !start.marked || two_equal(strand.symbols, start.at)
}

// A segment that stands in its place as it would be written, its message at d, is read with no edit.
fn put_standing(strand: &Strand, d: usize, out: &mut [u8]) -> Answer
    requires message { Length (length out.old) }
    requires inside { d + length out.old + (4 + width (length out.old)) ≤ length strand.now.symbols.now }
    ensures answer { result ≡ standing_answer (length out.old) d strand.now.symbols.now }
    ensures message { out.new ≡ take (length out.old) (drop d strand.now.symbols.now) }
{
    let k = out.len();
    let end = d + k + (4 + layers::width_of(k));
    copy(strand.symbols, d, out);
    Answer {
        verdict: Verdict::Read(Edit::None),
        next: Next::At(end, strand.symbols[end - 1]),
    }
}

// Steps 2 to 10 of a segment whose marker is whole; the symbols at d are summed.
fn read_summed(
    strand: &Strand,
    start: Start,
    rest: &[u16],
    d: usize,
    sums: Summed,
    out: &mut [u8],
) -> Answer
    requires at_start { AtStart strand.now start rest.now (length out.old) }
    requires whole { (is_whole strand.now start ≡ true) × (d ≡ start.at + data_at start.marked) × (d + length out.old ≤ length strand.now.symbols.now) }
    requires sums { sums ≡ sums_of (take (length out.old) (drop d strand.now.symbols.now)) }
    ensures { Stepped strand.now start rest.now out.old out.new result }
{
    let s = strand.symbols;
    let k = out.len();
    let to = d + k;
    let tail = tail_with(&s[d..to], sums);
    let found = find_separator(s, d, k);
    let read = read_whole(s, d, found, sums.places, tail, out);
    finished(strand, start, rest, found, read, out)
}

// A segment whose marker is whole: one that stands in its place needs no step.
fn read_marked(strand: &Strand, start: Start, rest: &[u16], out: &mut [u8]) -> Answer
    requires at_start { AtStart strand.now start rest.now (length out.old) }
    requires whole { is_whole strand.now start ≡ true }
    ensures { Stepped strand.now start rest.now out.old out.new result }
{
    let s = strand.symbols;
    let k = out.len();
    let d = start.at + data_at(start.marked);
    let to = d + k;
    if s.len() < to {
        return lost(strand, start, rest, 6, out);
    }
    let sums = layers::sums(&s[d..to]);
    if is_clean(s, start.at, start.marked, start.before, d, k, sums, rest) {
        return put_standing(strand, d, out);
    }
    read_summed(strand, start, rest, d, sums, out)
}

// Steps 2 to 10 of a segment whose marker is hit.
fn read_unmarked(strand: &Strand, start: Start, rest: &[u16], out: &mut [u8]) -> Answer
    requires at_start { AtStart strand.now start rest.now (length out.old) }
    requires not_whole { is_whole strand.now start ≡ false }
    ensures { Stepped strand.now start rest.now out.old out.new result }
{
    let found = find_separator(strand.symbols, start.at + 2, out.len());
    let read = read_hit(strand.symbols, start.at, found, out);
    finished(strand, start, rest, found, read, out)
}

// Steps 1 to 10 of the segment at a start.
fn read_at(strand: &Strand, start: Start, rest: &[u16], out: &mut [u8]) -> Answer
    requires { AtStart strand.now start rest.now (length out.old) }
    ensures { Stepped strand.now start rest.now out.old out.new result }
{
    if is_whole(strand, start) {
        return read_marked(strand, start, rest, out);
    }
    read_unmarked(strand, start, rest, out)
}

// The last segment, where a clean one is known to stand; letters may follow it.
fn read_last_clean(strand: &Strand, start: Start, rest: &[u16], out: &mut [u8]) -> Answer
    requires at_start { AtStart strand.now start rest.now (length out.old) × (length rest.now ≡ 0) }
    requires clean { CleanAt strand.now start (length out.old) }
    ensures { Stepped strand.now start rest.now out.old out.new result }
{
    let s = strand.symbols;
    let k = out.len();
    let d = start.at + 2;
    let to = d + k;
    let end = to + (4 + layers::width_of(k));
    copy(s, d, out);
    let tail = tail_given(out, &s[to + 4..end]);
    let found = find_separator(s, d, k);
    finished(strand, start, rest, found, Ok(tail), out)
}

// A segment where a clean one is known to stand.
fn read_clean(strand: &Strand, start: Start, rest: &[u16], out: &mut [u8]) -> Answer
    requires at_start { AtStart strand.now start rest.now (length out.old) }
    requires clean { CleanAt strand.now start (length out.old) }
    ensures { Stepped strand.now start rest.now out.old out.new result }
{
    if rest.is_empty() {
        return read_last_clean(strand, start, rest, out);
    }
    put_standing(strand, start.at + 2, out)
}

// A segment that is lost for want of a start; reading goes on at `next`.
fn unfound(next: Next, out: &mut [u8]) -> Answer
    ensures answer { result ≡ unfound_answer next }
    ensures zeros { out.new ≡ replicate (length out.old) 0 }
{
    put_zeros(out);
    Answer {
        verdict: Verdict::NoStart,
        next,
    }
}

// The segment where reading goes on, or one whose start is not found; its message goes to `out`, zeros where it is lost. `rest` is the lengths behind it.
// Whether its piece holds an N is not asked here.
pub fn read_segment(
    strand: &Strand,
    next: Next,
    marked: bool,
    rest: &[u16],
    out: &mut [u8],
) -> Answer
    requires message { Length (length out.old) × Lengths longest rest.now }
    requires known { Known strand.now.symbols.now strand.now.letters.now (length out.old ∷ rest.now) next × Marked next marked }
    ensures { SteppedFrom strand.now next marked rest.now out.old out.new result }
{
    match next {
        Next::At(at, before) => read_at(strand, Start { at, marked, before }, rest, out),
        Next::Clean(at, before, 0) => read_clean(strand, Start { at, marked, before }, rest, out),
        Next::Clean(at, before, passed) => unfound(Next::Clean(at, before, passed - 1), out),
        Next::Nowhere => unfound(Next::Nowhere, out),
    }
}
