// The writing call, and the strand of a layout: its length, and its segments one behind the other.

#![tactic(auto)]

ghost use Rattle.std.specs.Prelude.{◌≡◌, ◌<◌, false, ◌*◌, ◌≤◌, length};
ghost use Rattle.code.specs.Limits.{most_length, most_bytes, most_segments};
ghost use Rattle.code.specs.Bounds.{longest, reach};
ghost use Rattle.code.specs.Layout.{sum, Lengths, cut, strand, extent};
ghost use Rattle.code.specs.Order.{order};
ghost use Rattle.code.specs.Buffers.{over_front};
ghost use Rattle.code.specs.Writing.{strand_of, write_call};

use code::Refusal;
use refusal::order::Order;
use symbols::SHORT_BYTES;

// The length of a layout's strand.
pub fn extent_of(lengths: &[u16]) -> usize
    requires { Lengths most_length lengths.now × (1 ≤ length lengths.now) × (length lengths.now ≤ most_segments) }
    ensures { result ≡ extent false lengths.now }
{
    let mut n = 0;
    for &k in lengths {
        n += segment::size_of(true, k as usize);
    }
    n - 2
}

// The strand of symbols cut by a layout, at the front of `out`; and its length.
fn write_layout(lengths: &[u16], symbols: &[u8], out: &mut [u8]) -> usize
    requires lengths { Lengths longest lengths.now }
    requires room { (sum lengths.now ≡ length symbols.now) × (extent false lengths.now ≤ length out.old) }
    ensures ends { result ≡ extent false lengths.now }
    ensures written { out.new ≡ over_front (strand (cut lengths.now symbols.now)) out.old }
{
    let mut from = 0;
    let mut at = 0;
    let mut f: u8 = 0;
    let mut marked = false;
    for &k in lengths {
        let to = from + k as usize;
        f = segment::write_segment(marked, f, &symbols[from..to], out, at);
        at += segment::size_of(marked, k as usize);
        from = to;
        marked = true;
    }
    at
}

// The letters of the strand that carries bytes for an order, at the front of `out`; its messages have at most N symbols.
fn write_letters<const N: usize>(order: &Order, message: &[u8], out: &mut [u8])
    requires message { length message.now ≡ order.now.b }
    requires symbols { (4 * length message.now ≤ N) × (N < reach) }
    requires room { extent false order.now.lengths ≤ length out.old }
    ensures { out.new ≡ over_front (strand_of order.now.lengths message.now) out.old }
{
    let n = order.symbols();
    let mut symbols = [0u8; N];
    packing::unpack(message, &mut symbols);
    let end = write_layout(order.lengths(), &symbols[..n], out);
    symbols::spell(&mut out[..end]);
}

// Writes a strand: `message`, of B = `b` bytes, on the layout `lengths`, as the letters A, T, C and G at the front of `out`.
// Answers the number of letters: for each segment of k symbols k + t + 6, and for the first two fewer.
// Turned down, in this order: 1 a length is not 2 to 256; 2 B is not 1 to 512, or `message` has not B bytes; 3 there are no lengths
// or more than 64, or they do not sum to 4B; 5 `out` has fewer bytes than the strand has letters.
// The bytes of `out` behind the strand are untouched; a refusal leaves all of `out` as it was.
pub fn write(lengths: &[u16], b: u32, message: &[u8], out: &mut [u8]) -> Result<usize, Refusal>
    ensures { let o = order lengths.now b in (result, out.new) ≡ write_call o message.now out.old }
{
    let other = message.len() != b as usize;
    let order = Order::tested(lengths, b, other)?;
    let n = extent_of(order.lengths());
    if out.len() < n {
        return Err(Refusal::ShortBuffer);
    }
    if b <= SHORT_BYTES {
        write_letters::<512>(&order, message, out);
    } else {
        write_letters::<2048>(&order, message, out);
    }
    Ok(n)
}
