// The segment sheet: verdicts as numbers, their marks packed four to a byte, and how many there are of each.

#![tactic(auto)]

ghost use Rattle.std.specs.Prelude.{◌≡◌, ◌++◌, map, ◌+◌, ◌/◌, ◌<◌, ◌≤◌, length, get_or, drop};
ghost use Rattle.code.specs.Symbols.{Below};
ghost use Rattle.code.specs.Limits.{most_segments};
ghost use Rattle.code.specs.Bounds.{reach};
ghost use Rattle.code.specs.Verdicts.{numbered, verdict_number, verdict_of, Numbered};
ghost use Rattle.code.specs.Sheet.{mark_of, marks_of, sheet_of, counts_of, sheet_bytes};

use code::{Counts, Edit, Verdict};

// A kind of verdict in three bits, a symbol or a step in four, and a place.
fn joined(kind: u32, x: u8, i: usize) -> u32
    requires { (kind < 8) × (x < 16) × (i < reach) }
    ensures { result ≡ numbered kind x i }
{
    kind | ((x as u32) << 3) | ((i as u32) << 7)
}

// The number of a verdict.
pub fn number_of(v: Verdict) -> u32
    requires { Numbered v }
    ensures { result ≡ verdict_number v }
{
    match v {
        Verdict::Read(e) => match e {
            Edit::None => 0,
            Edit::Sub(i, x) => joined(2, x, i),
            Edit::Del(i, x) => joined(3, x, i),
            Edit::Ins(i, x) => joined(4, x, i),
        },
        Verdict::Unknown => 1,
        Verdict::Lost(step) => joined(5, step, 0),
        Verdict::NoStart => 6,
    }
}

// The verdict of a number.
pub fn verdict_of(n: u32) -> Verdict
    ensures { result ≡ verdict_of n }
{
    let kind = n & 7;
    let x = ((n >> 3) & 15) as u8;
    let i = (n >> 7) as usize;
    match kind {
        0 => Verdict::Read(Edit::None),
        1 => Verdict::Unknown,
        2 => Verdict::Read(Edit::Sub(i, x)),
        3 => Verdict::Read(Edit::Del(i, x)),
        4 => Verdict::Read(Edit::Ins(i, x)),
        5 => Verdict::Lost(x),
        _ => Verdict::NoStart,
    }
}

// The mark of a number's verdict: 0 for no edit, 1 for an edit or an N, 2 for a lost segment; a sum, so that many are formed at once.
fn mark_of(n: u32) -> u8
    ensures { result ≡ mark_of (verdict_of n) }
{
    let kind = n & 7;
    u8::from(0 < kind) + u8::from(4 < kind)
}

// The marks of verdicts.
pub fn marks_of(verdicts: &[u32], marks: &mut [u8])
    requires { length marks.old ≡ length verdicts.now }
    ensures { marks.new ≡ marks_of (map verdict_of verdicts.now) }
{
    for i in 0..verdicts.len() {
        marks[i] = mark_of(verdicts[i]);
    }
}

// How many bytes the sheet of l marks has.
pub fn sheet_bytes(l: usize) -> usize
    requires { l ≤ most_segments }
    ensures { result ≡ sheet_bytes l }
{
    l.div_ceil(4)
}

// The mark at a place; 0 past the end.
fn mark_at(marks: &[u8], i: usize) -> u8
    ensures { result ≡ get_or marks.now i 0 }
{
    marks.get(i).copied().unwrap_or(0)
}

// The sheet of marks at the front of `out`: the first mark in a byte's highest two bits, spare bits zero.
pub fn pack_sheet(marks: &[u8], out: &mut [u8])
    requires marks { Below 4 marks.now }
    requires room { (length marks.now ≤ most_segments) × (sheet_bytes (length marks.now) ≤ length out.old) }
    ensures { out.new ≡ sheet_of marks.now ++ drop (sheet_bytes (length marks.now)) out.old }
{
    for i in 0..sheet_bytes(marks.len()) {
        let j = 4 * i;
        let a = mark_at(marks, j);
        let b = mark_at(marks, j + 1);
        let c = mark_at(marks, j + 2);
        let d = mark_at(marks, j + 3);
        out[i] = packing::pack4(a, b, c, d);
    }
}

// How many marks are clean, corrected and lost.
pub fn counts_of(marks: &[u8]) -> Counts
    requires { length marks.now ≤ most_segments }
    ensures { result ≡ counts_of marks.now }
{
    let mut clean: u32 = 0;
    let mut corrected: u32 = 0;
    let mut lost: u32 = 0;
    for &mark in marks {
        clean += u32::from(mark == 0);
        corrected += u32::from(mark == 1);
        lost += u32::from(mark == 2);
    }
    Counts {
        clean,
        corrected,
        lost,
    }
}
