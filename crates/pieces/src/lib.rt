// The piece calls.

#![tactic(auto)]

ghost use Rattle.std.specs.Prelude.{Ok, ◌≡◌, ◌*◌, ◌<◌, ◌≤◌, length};
ghost use Rattle.code.specs.Bounds.{reach};
ghost use Rattle.code.specs.Order.{order};
ghost use Rattle.code.specs.ReadCall.{received_test, piece_call, locate_call};

use code::{Refusal, Span};
use reading::segments::Segments;
use refusal::order::Order;
use refusal::received_test;
use symbols::letters::Letters;
use symbols::{SHORT_BYTES, SHORT_LETTERS};

// Makes the tests 6 and 9 and locates a piece in a strand of at most L letters that tests 1 to 4 take, with at most S symbols of messages.
fn locate_within<const L: usize, const S: usize>(
    order: &Order,
    letters: &[u8],
    segment: u32,
) -> Result<Span, Refusal>
    requires received { received_test order.now (length letters.now) (Ok tt) ≡ Ok tt }
    requires letters { (length letters.now ≤ L) × (L < reach) }
    requires symbols { (4 * order.now.b ≤ S) × (S < reach) }
    ensures { result ≡ locate_call order.now letters.now segment }
{
    let mut numbers = [0u8; L];
    let letters = Letters::read(letters, &mut numbers)?;
    let i = order.index_of(segment)?;
    let mut verdicts = [0; 64];
    let mut ends = [0; 64];
    let segments = Segments::read(order, &letters, &mut [0u8; S], &mut verdicts, &mut ends);
    Ok(segments.span(i))
}

// Answers where the piece of a segment starts and where it ends, the segments being counted from 1; for callers that take places
// and not a part.
// Turned down, in this order: 1 to 4 and 6 as for a reading; 9 there is no such segment.
pub fn locate(lengths: &[u16], b: u32, letters: &[u8], segment: u32) -> Result<Span, Refusal>
    ensures { let o = order lengths.now b in result ≡ locate_call o letters.now segment }
{
    received_test(lengths, b, letters.len())?;
    let order = Order::known(lengths, b);
    if letters.len() <= SHORT_LETTERS && b <= SHORT_BYTES {
        locate_within::<1280, 512>(&order, letters, segment)
    } else {
        locate_within::<4096, 2048>(&order, letters, segment)
    }
}

// Hands back the piece of a segment, from 1: its stretch of the caller's own `letters`, received for an order; `number` and
// `place` become 0.
// Turned down, in this order: 1 to 4 and 6 as for a reading; 9 there is no such segment. Then the part is empty, and `number` and
// `place` become those of the refusal. They are lent beside the part, as its promise has them.
pub fn piece<'a>(
    lengths: &[u16],
    b: u32,
    letters: &'a [u8],
    segment: u32,
    number: &mut u8,
    place: &mut usize,
) -> &'a [u8]
    ensures { let o = order lengths.now b in (result.now, (number.new, place.new)) ≡ piece_call o letters.now segment }
{
    match locate(lengths, b, letters, segment) {
        Ok(span) => {
            *number = 0;
            *place = 0;
            &letters[span.start..span.end]
        }
        Err(r) => {
            *number = u8::from(r);
            *place = r.place();
            &letters[0..0]
        }
    }
}
