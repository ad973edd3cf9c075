// The tests of an order, and the type of an order that passed them.

#![tactic(auto)]

pub mod limits;
pub mod order;

ghost use Rattle.std.specs.Prelude.{◌≡◌, ◌||◌, ◌≤◌, length, Ok};
ghost use Rattle.code.specs.Refusals as R;
ghost use Rattle.code.specs.Layout.{sum, Lengths};
ghost use Rattle.code.specs.Limits.{least_length, most_length, most_bytes, most_segments};
ghost use Rattle.code.specs.Order.{order, bad_length, bad_cut, test_within, order_test};
ghost use Rattle.code.specs.ReadCall.{received_test, short_buffers};

use code::Refusal;
use limits::{LEAST_LENGTH, MOST_BYTES, MOST_LENGTH, MOST_SEGMENTS};
use order::Order;

// x is outside low .. high.
pub fn outside(low: usize, high: usize, x: usize) -> bool
    ensures { result ≡ R.outside low high x }
{
    x < low || high < x
}

// Some length is below the least or above `most`; every length is looked at, so that many are at once.
pub fn bad_length(lengths: &[u16], most: u16) -> bool
    ensures { result ≡ bad_length most lengths.now }
{
    let mut bad = false;
    for &k in lengths {
        bad |= (k < LEAST_LENGTH) | (most < k);
    }
    bad
}

// The sum of lengths within the limits.
fn sum_of(lengths: &[u16]) -> u16
    requires { Lengths most_length lengths.now × (length lengths.now ≤ most_segments) }
    ensures { result ≡ sum lengths.now }
{
    let mut total = 0;
    for &k in lengths {
        total += k;
    }
    total
}

// There are no lengths or too many, or they do not sum to 4B.
fn bad_cut(lengths: &[u16], b: u32) -> bool
    requires { Lengths most_length lengths.now × (b ≤ most_bytes) }
    ensures { result ≡ bad_cut (order lengths.now b) }
{
    outside(1, MOST_SEGMENTS, lengths.len()) || u32::from(sum_of(lengths)) != 4 * b
}

// The tests 1, 2 and 3 of an order, where a length is at most `long` and B at most `many`, and `other` says that the message's length is not B.
pub fn test_within(
    long: u16,
    many: usize,
    lengths: &[u16],
    b: u32,
    other: bool,
) -> Result<(), Refusal>
    requires { (long ≤ most_length) × (many ≤ most_bytes) }
    ensures { let o = order lengths.now b in result ≡ test_within long many o other (Ok tt) }
{
    if bad_length(lengths, long) {
        return Err(Refusal::SegmentLength);
    }
    if outside(1, many, b as usize) || other {
        return Err(Refusal::MessageSize);
    }
    if bad_cut(lengths, b) {
        return Err(Refusal::Cut);
    }
    Ok(())
}

// The tests 1, 2 and 3 of the calls.
pub fn order_test(lengths: &[u16], b: u32, other: bool) -> Result<(), Refusal>
    ensures { let o = order lengths.now b in result ≡ order_test o other (Ok tt) }
{
    test_within(MOST_LENGTH, MOST_BYTES, lengths, b, other)
}

// The tests 1 to 4 of n letters received for an order.
pub fn received_test(lengths: &[u16], b: u32, n: usize) -> Result<(), Refusal>
    ensures { let o = order lengths.now b in result ≡ received_test o n (Ok tt) }
{
    Order::new(lengths, b)?.received(n)
}

// A message buffer of n bytes or a sheet buffer of m bytes is too short for an order.
pub fn short_buffers(lengths: &[u16], b: u32, n: usize, m: usize) -> bool
    requires { length lengths.now ≤ most_segments }
    ensures { let o = order lengths.now b in result ≡ short_buffers o n m }
{
    n < b as usize || m < sheet::sheet_bytes(lengths.len())
}
