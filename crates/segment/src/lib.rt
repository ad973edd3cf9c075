// Writing one segment: its marker, the message, and what follows the message.

#![tactic(auto)]

ghost use Rattle.std.specs.Prelude.{◌≡◌, ◌+◌, ◌<◌, ◌≤◌, length};
ghost use Rattle.code.specs.Bounds.{longest, widest, Length};
ghost use Rattle.code.specs.Buffers.{put_at};
ghost use Rattle.code.specs.Layers.{pair, bits};
ghost use Rattle.code.specs.Segment.{segment, last_of, size, data_at};
ghost use Rattle.tail.specs.Tails.{mark, IsTail, tail_of};

use copying::put;
use tail::{Tail, last_of, sep_of, tail_of};

// The marker of a message at a place of `out`, where its segment has one; and the place behind it.
fn put_marker(marked: bool, f: u8, message: &[u8], out: &mut [u8], at: usize) -> usize
    requires { (f < 4) × (2 ≤ length message.now) × (at + 2 ≤ length out.old) }
    ensures { (out.new ≡ put_at out.old at (mark marked f message.now)) × (result ≡ at + length (mark marked f message.now)) }
{
    if marked {
        let m = sep_of(f, message[0], message[1]);
        put(&[m, m], out, at);
        return at + 2;
    }
    at
}

// Two numbers in t bits, the most significant first, paired bit by bit, at a place of `out`.
fn put_pairs(high: usize, low: usize, t: usize, out: &mut [u8], at: usize)
    requires { at + t ≤ length out.old }
    ensures { out.new ≡ put_at out.old at (pair (bits t high) (bits t low)) }
{
    let mut h = high;
    let mut l = low;
    for i in (0..t).rev() {
        out[at + i] = (2 * (h & 1) + (l & 1)) as u8;
        h >>= 1;
        l >>= 1;
    }
}

// The tail of a message at a place of `out`.
fn put_tail(tail: Tail, out: &mut [u8], at: usize)
    requires { (tail.width ≤ widest) × (at + (4 + tail.width) ≤ length out.old) }
    ensures { out.new ≡ put_at out.old at (tail_of tail) }
{
    let s = tail.separator;
    put(&[tail.check, s, s, s], out, at);
    put_pairs(tail.high, tail.low, tail.width, out, at + 4);
}

// The segment of a message with its tail at a place of `out`; f is the last symbol of the segment before.
pub fn put_segment(marked: bool, f: u8, message: &[u8], tail: Tail, out: &mut [u8], at: usize)
    requires tail { IsTail message.now tail }
    requires room { (f < 4) × Length (length message.now) × (at + size marked (length message.now) ≤ length out.old) }
    ensures { out.new ≡ put_at out.old at (segment marked f message.now) }
{
    let start = put_marker(marked, f, message, out, at);
    put(message, out, start);
    put_tail(tail, out, start + message.len());
}

// The segment of a message at a place of `out`; f is the last symbol of the segment before, and the answer that of this one.
pub fn write_segment(marked: bool, f: u8, message: &[u8], out: &mut [u8], at: usize) -> u8
    requires { (f < 4) × Length (length message.now) × (at + size marked (length message.now) ≤ length out.old) }
    ensures { (out.new ≡ put_at out.old at (segment marked f message.now)) × (result ≡ last_of message.now) }
{
    let tail = tail_of(message);
    put_segment(marked, f, message, tail, out, at);
    last_of(tail)
}

// Where the message stands in a segment.
pub fn data_at(marked: bool) -> usize
    ensures { (result ≡ data_at marked) × (result ≤ 2) }
{
    if marked { 2 } else { 0 }
}

// The length of a segment of k message symbols.
pub fn size_of(marked: bool, k: usize) -> usize
    requires { (0 < k) × (k ≤ longest) }
    ensures { result ≡ size marked k }
{
    data_at(marked) + (k + (4 + layers::width_of(k)))
}
