// Whether a written segment, or a part of one, stands at a place.

#![tactic(auto)]

ghost use Rattle.std.specs.Prelude.{◌≡◌, ◌+◌, ◌-◌, ◌<◌, ◌≤◌, length, take, drop};
ghost use Rattle.code.specs.Bounds.{widest, reach, Length, Received};
ghost use Rattle.code.specs.Layers.{sum_of_places};
ghost use Rattle.code.specs.Segment.{syndrome_of, data_at};
ghost use Rattle.code.specs.Reading.{is_prefix};
ghost use Rattle.layers.specs.LayerSums.{both, sums_of};
ghost use Rattle.tail.specs.Tails.{mark, syndrome_in};
ghost use Rattle.clean.specs.Clean.{Placed, may_end, behind_message, stands_at};

use layers::{Layers, Summed};
use tail::{Tail, sep_of};

// The syndrome symbols of a tail stand at the place.
pub fn syndrome_at(tail: Tail, s: &[u8], at: usize) -> bool
    requires { (at < reach) × (0 < tail.width) × (tail.width ≤ widest) }
    ensures { result ≡ is_prefix (syndrome_in tail) (drop at s.now) }
{
    if s.len() < at + tail.width {
        return false;
    }
    let mut h = tail.high;
    let mut l = tail.low;
    for i in (0..tail.width).rev() {
        if (2 * (h & 1) + (l & 1)) as u8 != s[at + i] {
            return false;
        }
        h >>= 1;
        l >>= 1;
    }
    true
}

// The marker of the message behind it stands at p, where a segment has one.
pub fn marker_stands(s: &[u8], p: usize, marked: bool, f: u8) -> bool
    requires { (f < 4) × (p + data_at marked + 2 ≤ length s.now) × (p < reach) }
    ensures { result ≡ is_prefix (mark marked f (drop (data_at marked) (drop p s.now))) (drop p s.now) }
{
    if marked {
        let m = sep_of(f, s[p + 2], s[p + 3]);
        return (m == s[p]) & (m == s[p + 1]);
    }
    true
}

// A segment may end at the place: another is to follow it, or the n symbols of the strand end there.
fn may_end(rest: &[u16], end: usize, n: usize) -> bool
    ensures { result ≡ may_end rest.now end n }
{
    !rest.is_empty() || end == n
}

// The syndrome of the symbols from d to before `to`, whose sums are known, stands behind the separator that follows them.
fn syndrome_stands(s: &[u8], d: usize, to: usize, end: usize, places: Layers) -> bool
    requires received { Received s.now }
    requires placed { Placed d to end s.now }
    requires places { places ≡ both sum_of_places (take (to - d) (drop d s.now)) }
    ensures { result ≡ is_prefix (syndrome_of (take (to - d) (drop d s.now))) (drop (to + 4) s.now) }
{
    let from = to + 4;
    let written = layers::numbers(&s[from..end]);
    let own = layers::syndromes(&s[d..to], places);
    written.high == own.high && written.low == own.low
}

// Check, separator and syndrome of the symbols from d to before `to`, whose sums are known, stand behind them.
fn tail_stands(s: &[u8], d: usize, to: usize, end: usize, sums: Summed) -> bool
    requires received { Received s.now }
    requires placed { Placed d to end s.now }
    requires sums { sums ≡ sums_of (take (to - d) (drop d s.now)) }
    ensures { result ≡ is_prefix (behind_message (take (to - d) (drop d s.now))) (drop to s.now) }
{
    let c = sums.check;
    let x = sep_of(c, s[to + 4], s[to + 5]);
    let same = (c == s[to]) & (x == s[to + 1]) & (x == s[to + 2]) & (x == s[to + 3]);
    same && syndrome_stands(s, d, to, end, sums.places)
}

// The segment at p is clean: that of the k symbols at d, whose sums are known, stands there and may end where it does; `rest` is the
// lengths behind it.
pub fn is_clean(
    s: &[u8],
    p: usize,
    marked: bool,
    f: u8,
    d: usize,
    k: usize,
    sums: Summed,
    rest: &[u16],
) -> bool
    requires received { Received s.now }
    requires placed { (f < 4) × Length k × (d ≡ p + data_at marked) × (d + k ≤ length s.now) }
    requires sums { sums ≡ sums_of (take k (drop d s.now)) }
    ensures { result ≡ stands_at marked f k rest.now p s.now }
{
    let to = d + k;
    let end = to + (4 + layers::width_of(k));
    if s.len() < end {
        return false;
    }
    if !may_end(rest, end, s.len()) {
        return false;
    }
    if !marker_stands(s, p, marked, f) {
        return false;
    }
    tail_stands(s, d, to, end, sums)
}
