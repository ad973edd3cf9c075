// The public calls under C names: numbers, structs of numbers and slices alone cross the border. No call asks anything of its caller.
// In an answer `refusal` is 0 where the call is taken and else the refusal's number; `place` is the first foreign letter's, from 0,
// where `refusal` is 6, and else 0. The other numbers of a refused call are 0; those of a tally are the old ones.

#![tactic(auto)]

pub mod structs;

ghost use Rattle.std.specs.Prelude.{◌≡◌};
ghost use Rattle.code.specs.Symbols.{symbol_of};
ghost use Rattle.code.specs.Refusals.{number_of};
ghost use Rattle.code.specs.Writing.{write_call};
ghost use Rattle.code.specs.ReadCall.{read_call, locate_call};
ghost use Rattle.code.specs.Order.{order};
ghost use Rattle.report.specs.ReportCall.{report_call, verdict_call};
ghost use Rattle.code.specs.Label.{label_call, label_read};
ghost use Rattle.code.specs.Conversion.{convert_call};
ghost use Rattle.code.specs.Quote.{quote_call};
ghost use Rattle.code.specs.Tallies.{tallied};
ghost use Rattle.dnalm.specs.CallAnswers.{answered, from_letter, from_wrote, from_counted, from_located};
ghost use Rattle.dnalm.specs.CallAnswers.{in_numbers, from_verdict, from_reported, from_labelled, from_quoted, as_tally, as_counts, from_tallied};
ghost use Rattle.dnalm.specs.Demand3Counts.{Demand3Counts};

use code::{Edit, Letter, Refusal, Verdict};
use lines::letter_of;
use structs::{Counts, Order, Piece, Quoted, Said, Tallied, Tally, Written};

// Answers what a byte of a strand is, as `symbols::symbol_of` does: 0 to 3 for the symbol of A, T, C and G, 4 for N, which stands for an unknown
// letter, 5 for a foreign byte.
#[unsafe(no_mangle)]
pub extern "C" fn dnalm_letter(byte: u8) -> u8
    ensures { result ≡ from_letter (symbol_of byte) }
{
    let letter = symbols::symbol_of(byte);
    match letter {
        Letter::Symbol(s) => s,
        Letter::Unknown => 4,
        Letter::Foreign => 5,
    }
}

// The number of a refusal.
fn number_of(r: Refusal) -> u32
    ensures { result ≡ number_of r }
{
    u32::from(u8::from(r))
}

// The answer of a writing in numbers.
fn told(wrote: Result<usize, Refusal>) -> Written
    ensures { result ≡ from_wrote wrote }
{
    match wrote {
        Ok(n) => Written {
            refusal: 0,
            place: 0,
            length: n,
        },
        Err(r) => Written {
            refusal: number_of(r),
            place: r.place(),
            ..Written::default()
        },
    }
}

// Writes a strand to the front of `out`, as `writer::write` does.
#[unsafe(no_mangle)]
pub extern "C" fn dnalm_write(lengths: &[u16], b: u32, message: &[u8], out: &mut [u8]) -> Written
    ensures { let o = order lengths.now b in (result, out.new) ≡ answered from_wrote (write_call o message.now out.old) }
{
    told(writer::write(lengths, b, message, out))
}

// Reads a strand: the message to the front of `message` and the marks to the front of `sheet`, as `reader::read` does.
// The second clause is demand 3: letters with at most one edit in each segment, N among the letters, give the message that was written, and
// nothing lost.
#[unsafe(no_mangle)]
pub extern "C" fn dnalm_read(
    lengths: &[u16],
    b: u32,
    letters: &[u8],
    message: &mut [u8],
    sheet: &mut [u8],
) -> Counts
    ensures exact { let call = read_call (order lengths.now b) letters.now message.old sheet.old in
        (result, (message.new, sheet.new)) ≡ answered from_counted call }
    ensures one_edit { let o = order lengths.now b in
        Demand3Counts o letters.now message.old sheet.old (result, (message.new, sheet.new)) }
{
    match reader::read(lengths, b, letters, message, sheet) {
        Ok(n) => Counts {
            refusal: 0,
            place: 0,
            clean: n.clean,
            corrected: n.corrected,
            lost: n.lost,
        },
        Err(r) => Counts {
            refusal: number_of(r),
            place: r.place(),
            ..Counts::default()
        },
    }
}

// Answers which stretch of `letters` is the piece of a segment, from 1, as `pieces::locate` does.
#[unsafe(no_mangle)]
pub extern "C" fn dnalm_piece(lengths: &[u16], b: u32, letters: &[u8], segment: u32) -> Piece
    ensures { let o = order lengths.now b in result ≡ from_located (locate_call o letters.now segment) }
{
    match pieces::locate(lengths, b, letters, segment) {
        Ok(span) => Piece {
            refusal: 0,
            place: 0,
            start: span.start,
            length: span.end - span.start,
        },
        Err(r) => Piece {
            refusal: number_of(r),
            place: r.place(),
            ..Piece::default()
        },
    }
}

// Writes a line for each segment to the front of `out`, as `report::write` does.
#[unsafe(no_mangle)]
pub extern "C" fn dnalm_report(lengths: &[u16], b: u32, letters: &[u8], out: &mut [u8]) -> Written
    ensures { let o = order lengths.now b in (result, out.new) ≡ answered from_wrote (report_call o letters.now out.old) }
{
    told(report::write(lengths, b, letters, out))
}

// What is said of a segment, by its numbers.
fn said(kind: u32, at: usize, letter: u8, step: u8) -> Said
    ensures { result ≡ in_numbers kind at letter step }
{
    Said {
        refusal: 0,
        place: 0,
        kind,
        at,
        letter,
        step,
    }
}

// A verdict in numbers.
fn verdict_told(v: Verdict) -> Said
    ensures { result ≡ from_verdict v }
{
    match v {
        Verdict::Read(Edit::None) => said(0, 0, 0, 0),
        Verdict::Read(Edit::Sub(i, x)) => said(2, i, letter_of(x), 0),
        Verdict::Read(Edit::Del(i, x)) => said(3, i, letter_of(x), 0),
        Verdict::Read(Edit::Ins(i, x)) => said(4, i, letter_of(x), 0),
        Verdict::Unknown => said(1, 0, 0, 0),
        Verdict::Lost(step) => said(5, 0, 0, step),
        Verdict::NoStart => said(6, 0, 0, 0),
    }
}

// Answers what happened to a segment, from 1, as `report::verdict` does.
#[unsafe(no_mangle)]
pub extern "C" fn dnalm_verdict(lengths: &[u16], b: u32, letters: &[u8], segment: u32) -> Said
    ensures { let o = order lengths.now b in result ≡ from_reported (verdict_call o letters.now segment) }
{
    match report::verdict(lengths, b, letters, segment) {
        Ok(v) => verdict_told(v),
        Err(r) => Said {
            refusal: number_of(r),
            place: r.place(),
            ..Said::default()
        },
    }
}

// Writes the label of an order to the front of `out`, as `label::write` does.
#[unsafe(no_mangle)]
pub extern "C" fn dnalm_write_label(lengths: &[u16], b: u32, out: &mut [u8]) -> Written
    ensures { let o = order lengths.now b in (result, out.new) ≡ answered from_wrote (label_call o out.old) }
{
    told(label::write(lengths, b, out))
}

// Writes the label on the other side to the front of `out`, as `label::convert` does.
#[unsafe(no_mangle)]
pub extern "C" fn dnalm_convert_label(bytes: &[u8], out: &mut [u8]) -> Written
    ensures { (result, out.new) ≡ answered from_wrote (convert_call bytes.now out.old) }
{
    told(label::convert(bytes, out))
}

// Reads a label and answers its order, as `label::read` does.
#[unsafe(no_mangle)]
pub extern "C" fn dnalm_read_label(bytes: &[u8]) -> Order
    ensures { result ≡ from_labelled (label_read bytes.now) }
{
    match label::read(bytes) {
        Ok(label) => {
            let lengths = label.lengths;
            Order {
                refusal: 0,
                b: label.b,
                count: label.count,
                lengths,
            }
        }
        Err(r) => Order {
            refusal: number_of(r),
            b: 0,
            count: 0,
            lengths: [0; 64],
        },
    }
}

// Answers what `strands` strands of an order take, as `quote::quote` does.
#[unsafe(no_mangle)]
pub extern "C" fn dnalm_quote(lengths: &[u16], b: u32, strands: u16) -> Quoted
    ensures { let o = order lengths.now b in result ≡ from_quoted (quote_call o strands) }
{
    match quote::quote(lengths, b, strands) {
        Ok(q) => Quoted {
            refusal: 0,
            letters: q.letters,
            bytes: q.bytes,
            starts: q.starts,
        },
        Err(r) => Quoted {
            refusal: number_of(r),
            ..Quoted::default()
        },
    }
}

// Adds the counts of one reading and one strand to a tally, as `tally::add` does. A refusal answers the old counts.
#[unsafe(no_mangle)]
pub extern "C" fn dnalm_add_to_tally(t: Tally, clean: u32, corrected: u32, lost: u32) -> Tallied
    ensures { result ≡ from_tallied t (tallied (as_tally t) (as_counts clean corrected lost)) }
{
    let old = code::Tally {
        strands: t.strands,
        counts: code::Counts {
            clean: t.clean,
            corrected: t.corrected,
            lost: t.lost,
        },
    };
    let read = code::Counts {
        clean,
        corrected,
        lost,
    };
    match tally::add(old, read) {
        Ok(sum) => Tallied {
            refusal: 0,
            strands: sum.strands,
            clean: sum.counts.clean,
            corrected: sum.counts.corrected,
            lost: sum.counts.lost,
        },
        Err(r) => Tallied {
            refusal: number_of(r),
            strands: t.strands,
            clean: t.clean,
            corrected: t.corrected,
            lost: t.lost,
        },
    }
}
