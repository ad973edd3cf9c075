// Step 9: a piece against the segment written anew.

#![tactic(auto)]

ghost use Rattle.std.specs.Prelude.{◌≡◌, cond, ◌+◌, ◌<◌, ◌≤◌, length, get_or};
ghost use Rattle.code.specs.Bounds.{reach};
ghost use Rattle.code.specs.Edits.{judged};
ghost use Rattle.edits.specs.Judgement.{common, run_start, judged_as};

use code::{Edit, Verdict};
use places::comparisons::stands_at;
use places::words::eight_at;

// How many symbols two lists share at the front: the first place where they differ or one ends.
fn first_difference(w: &[u8], v: &[u8]) -> usize
    ensures { result ≡ common w.now v.now }
{
    let n = w.len().min(v.len());
    // By eights: a chain over single symbols reads slower.
    let mut i = 0;
    while i + 8 <= n {
        if eight_at(w, i) != eight_at(v, i) {
            break;
        }
        i += 8;
    }
    while i < n {
        if w[i] != v[i] {
            return i;
        }
        i += 1;
    }
    i
}

// Where the run of equal symbols that ends at place i starts.
fn run_start(w: &[u8], i: usize) -> usize
    requires { i < length w.now }
    ensures { (result ≡ run_start w.now (get_or w.now i 0) i) × (result ≤ i) }
{
    let x = w[i];
    for p in (0..i).rev() {
        if w[p] != x {
            return p + 1;
        }
    }
    0
}

// As many symbols: none or one of them changed.
fn judge_changed(written: &[u8], piece: &[u8], i: usize) -> Verdict
    requires { (length written.now < reach) × (length piece.now ≡ length written.now) × (i ≡ common written.now piece.now) }
    ensures { result ≡ judged_as (judged written.now piece.now) }
{
    if written.len() <= i {
        return Verdict::Read(Edit::None);
    }
    let next = i + 1;
    if stands_at(&written[next..], piece, next) {
        return Verdict::Read(Edit::Sub(i, piece[i]));
    }
    Verdict::Lost(9)
}

// One symbol less, or one more, in the piece: the first place of its run is named. `less` says which of the two, so that the test stands once.
fn judge_run(long: &[u8], short: &[u8], i: usize, less: bool) -> Verdict
    requires { (length long.now < reach) × (length short.now + 1 ≡ length long.now) × (i ≤ length short.now) × (i ≡ common long.now short.now) }
    ensures { result ≡ judged_as (judged (cond less long.now short.now) (cond less short.now long.now)) }
{
    let next = i + 1;
    if !stands_at(&long[next..], short, i) {
        return Verdict::Lost(9);
    }
    let p = run_start(long, i);
    let x = long[p];
    if less {
        return Verdict::Read(Edit::Del(p, x));
    }
    Verdict::Read(Edit::Ins(p, x))
}

// Step 9: the edit that turns the written segment into the piece; lost where one is not enough.
pub fn judge(written: &[u8], piece: &[u8]) -> Verdict
    requires { (length written.now < reach) × (length piece.now < reach) }
    ensures { result ≡ judged_as (judged written.now piece.now) }
{
    let i = first_difference(written, piece);
    if piece.len() == written.len() {
        return judge_changed(written, piece, i);
    }
    if piece.len() + 1 == written.len() {
        return judge_run(written, piece, i, true);
    }
    if piece.len() == written.len() + 1 {
        return judge_run(piece, written, i, false);
    }
    Verdict::Lost(9)
}
