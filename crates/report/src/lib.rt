// The report calls: what happened to each segment.

#![tactic(auto)]

ghost use Rattle.std.specs.Prelude.{Ok, ◌≡◌, ◌*◌, ◌<◌, ◌≤◌, length, get_or};
ghost use Rattle.code.specs.Bounds.{reach};
ghost use Rattle.code.specs.ReadCall.{received_test};
ghost use Rattle.code.specs.Order.{order};
ghost use Rattle.code.specs.declared.Verdict.TheVariants.{NoStart};
ghost use Rattle.code.specs.Verdicts.{verdict_of};
ghost use Rattle.text.specs.Put.{Room, Grown};
ghost use Rattle.lines.specs.Report.{in_letters, lines_from};
ghost use Rattle.report.specs.ReportCall.{report_call, verdict_call};
ghost use Rattle.report.specs.Walked.{Inside, reported_from, Reportable};

use code::{Edit, Refusal, Verdict};
use lines::put_line;
use reading::segments::Segments;
use refusal::order::Order;
use refusal::received_test;
use sheet::verdict_of;
use symbols::letters::Letters;
use symbols::{SHORT_BYTES, SHORT_LETTERS};
use text::Text;

// The verdict of a number, with the letter that was received in the place of its symbol.
fn in_letters(number: u32, piece: &[u8]) -> Verdict
    requires { Inside (verdict_of number) piece.now }
    ensures { result ≡ in_letters (verdict_of number) piece.now }
{
    match verdict_of(number) {
        Verdict::Read(Edit::Sub(i, _)) => Verdict::Read(Edit::Sub(i, piece[i])),
        Verdict::Read(Edit::Ins(i, _)) => Verdict::Read(Edit::Ins(i, piece[i])),
        v => v,
    }
}

// What is reported of the segment behind the first i.
fn reported(segments: &Segments, letters: &[u8], i: usize) -> Verdict
    requires reportable { Reportable 0 segments.now.numbers segments.now.ends letters.now }
    requires there { i < length segments.now.numbers }
    ensures { result ≡ get_or (reported_from 0 segments.now.numbers segments.now.ends letters.now) i NoStart }
{
    let number = segments.verdicts()[i];
    let span = segments.span(i);
    in_letters(number, &letters[span.start..span.end])
}

// The lines of all segments, behind the text so far.
fn put_lines(out: &mut Text, segments: &Segments, letters: &[u8])
    requires reportable { Reportable 0 segments.now.numbers segments.now.ends letters.now }
    requires room { Room out.old (lines_from 1 (reported_from 0 segments.now.numbers segments.now.ends letters.now)) }
    ensures { Grown out.old (lines_from 1 (reported_from 0 segments.now.numbers segments.now.ends letters.now)) out.new }
{
    for i in 0..segments.verdicts().len() {
        put_line(out, i + 1, reported(segments, letters, i));
    }
}

// Makes the tests 6 and 5 and reports a strand of at most L letters that tests 1 to 4 take, with at most S symbols of messages. The lines are formed
// apart, since only then their number of bytes is known.
fn write_within<const L: usize, const S: usize>(
    order: &Order,
    letters: &[u8],
    out: &mut [u8],
) -> Result<usize, Refusal>
    requires received { received_test order.now (length letters.now) (Ok tt) ≡ Ok tt }
    requires letters { (length letters.now ≤ L) × (L < reach) }
    requires symbols { (4 * order.now.b ≤ S) × (S < reach) }
    ensures { (result, out.new) ≡ report_call order.now letters.now out.old }
{
    let mut numbers = [0u8; L];
    let letters = Letters::read(letters, &mut numbers)?;
    let mut verdicts = [0; 64];
    let mut ends = [0; 64];
    let segments = Segments::read(order, &letters, &mut [0u8; S], &mut verdicts, &mut ends);
    let mut room = [0u8; 960];
    let mut lines = Text::new(&mut room);
    put_lines(&mut lines, &segments, letters.numbers());
    let bytes = lines.bytes();
    let n = bytes.len();
    if out.len() < n {
        return Err(Refusal::ShortBuffer);
    }
    copying::put(bytes, out, 0);
    Ok(n)
}

// Reports a reading: a line for each segment of the received `letters` goes to the front of `out`. It has the segment's number, from 1, a space and what
// happened to it: `clean`; `sub 7 C`, `ins 7 C` or `del 7 C`, the edit with its place in the written segment, from 0, and its letter, the received one
// for sub and ins and the written one for del; `unknown`, as written but for N in the place of A; `lost 8`, lost in that reading step; `lost start`, lost
// since no start was found. Answers how many bytes the lines have.
// Turned down, in this order: 1 to 4 and 6 as for a reading; 5 `out` has fewer bytes than the lines.
// The bytes behind the lines are untouched; a refusal leaves the buffer as it was.
pub fn write(lengths: &[u16], b: u32, letters: &[u8], out: &mut [u8]) -> Result<usize, Refusal>
    ensures { let o = order lengths.now b in (result, out.new) ≡ report_call o letters.now out.old }
{
    received_test(lengths, b, letters.len())?;
    let order = Order::known(lengths, b);
    if letters.len() <= SHORT_LETTERS && b <= SHORT_BYTES {
        write_within::<1280, 512>(&order, letters, out)
    } else {
        write_within::<4096, 2048>(&order, letters, out)
    }
}

// Makes the tests 6 and 9 and tells a verdict of a strand of at most L letters that tests 1 to 4 take, with at most S symbols of messages.
fn verdict_within<const L: usize, const S: usize>(
    order: &Order,
    letters: &[u8],
    segment: u32,
) -> Result<Verdict, Refusal>
    requires received { received_test order.now (length letters.now) (Ok tt) ≡ Ok tt }
    requires letters { (length letters.now ≤ L) × (L < reach) }
    requires symbols { (4 * order.now.b ≤ S) × (S < reach) }
    ensures { result ≡ verdict_call order.now letters.now segment }
{
    let mut numbers = [0u8; L];
    let letters = Letters::read(letters, &mut numbers)?;
    let i = order.index_of(segment)?;
    let mut verdicts = [0; 64];
    let mut ends = [0; 64];
    let segments = Segments::read(order, &letters, &mut [0u8; S], &mut verdicts, &mut ends);
    Ok(reported(&segments, letters.numbers(), i))
}

// Answers what the line of one segment tells, the segments being counted from 1; an edit carries the number of its letter, 4 for N.
// Turned down, in this order: 1 to 4 and 6 as for a reading; 9 there is no such segment.
pub fn verdict(lengths: &[u16], b: u32, letters: &[u8], segment: u32) -> Result<Verdict, Refusal>
    ensures { let o = order lengths.now b in result ≡ verdict_call o letters.now segment }
{
    received_test(lengths, b, letters.len())?;
    let order = Order::known(lengths, b);
    if letters.len() <= SHORT_LETTERS && b <= SHORT_BYTES {
        verdict_within::<1280, 512>(&order, letters, segment)
    } else {
        verdict_within::<4096, 2048>(&order, letters, segment)
    }
}
