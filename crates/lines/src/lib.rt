// The lines of a report: the text of a verdict.

#![tactic(auto)]

ghost use Rattle.std.specs.Prelude.{◌≡◌};
ghost use Rattle.code.specs.Symbols.{letter_of};
ghost use Rattle.text.specs.Put.{Room, Grown};
ghost use Rattle.lines.specs.Report.{edited, words, segment_line};

use code::{Edit, Verdict};
use text::Text;

// The letter of a number: those of the symbols, and N; 0 for a number that has none.
pub fn letter_of(x: u8) -> u8
    ensures { result ≡ letter_of x }
{
    match x {
        0..=3 => symbols::letter_of(x),
        4 => b'N',
        _ => 0,
    }
}

// The words of an edit: its word, its place and its letter.
fn put_edited(out: &mut Text, word: &[u8], i: usize, x: u8)
    requires { Room out.old (edited word.now i x) }
    ensures { Grown out.old (edited word.now i x) out.new }
{
    out.put_named(word, i as u64);
    out.put(&[b' ', letter_of(x)]);
}

// The words of a verdict.
#[tactic(auto, unfolding(crate::specs::Report::words))]
fn put_words(out: &mut Text, v: Verdict)
    requires { Room out.old (words v) }
    ensures { Grown out.old (words v) out.new }
{
    match v {
        Verdict::Read(Edit::None) => out.put(b"clean"),
        Verdict::Read(Edit::Sub(i, x)) => put_edited(out, b"sub ", i, x),
        Verdict::Read(Edit::Del(i, x)) => put_edited(out, b"del ", i, x),
        Verdict::Read(Edit::Ins(i, x)) => put_edited(out, b"ins ", i, x),
        Verdict::Unknown => out.put(b"unknown"),
        Verdict::Lost(step) => out.put_named(b"lost ", u64::from(step)),
        Verdict::NoStart => out.put(b"lost start"),
    }
}

// The line of the n-th segment.
pub fn put_line(out: &mut Text, n: usize, v: Verdict)
    requires { Room out.old (segment_line n v) }
    ensures { Grown out.old (segment_line n v) out.new }
{
    out.put_decimal(n as u64);
    out.put(b" ");
    put_words(out, v);
    out.put(b"\n");
}
