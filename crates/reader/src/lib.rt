// The reading call.

#![tactic(auto)]

ghost use Rattle.std.specs.Prelude.{Ok, ◌≡◌, ◌<◌, false, ◌*◌, ◌≤◌, length};
ghost use Rattle.code.specs.Bounds.{reach};
ghost use Rattle.code.specs.Order.{order};
ghost use Rattle.code.specs.Strands.{outcomes};
ghost use Rattle.code.specs.ReadCall.{received_test, short_buffers, read_as, read_call};
ghost use Rattle.code.specs.ReadDemand.{Demand3Call};

use code::{Counts, Refusal};
use reading::segments::Segments;
use refusal::order::Order;
use refusal::received_test;
use symbols::letters::Letters;
use symbols::{SHORT_BYTES, SHORT_LETTERS};

// Reads the segments of an order: bytes at the front of `message`, marks at the front of `sheet`, and their counts. The messages have at most S symbols.
fn read_segments<const S: usize>(
    order: &Order,
    letters: &Letters,
    message: &mut [u8],
    sheet: &mut [u8],
) -> Counts
    requires symbols { (4 * order.now.b ≤ S) × (S < reach) }
    requires buffers { short_buffers order.now (length message.old) (length sheet.old) ≡ false }
    ensures { let os = outcomes order.now.lengths letters.now in
        (Ok result, (message.new, sheet.new)) ≡ read_as os message.old sheet.old }
{
    let n = order.symbols();
    let mut symbols = [0u8; S];
    let mut verdicts = [0; 64];
    let mut ends = [0; 64];
    let segments = Segments::read(order, letters, &mut symbols, &mut verdicts, &mut ends);
    packing::pack(&symbols[..n], message);
    let verdicts = segments.verdicts();
    let l = verdicts.len();
    let mut marks = [0u8; 64];
    sheet::marks_of(verdicts, &mut marks[..l]);
    sheet::pack_sheet(&marks[..l], sheet);
    sheet::counts_of(&marks[..l])
}

// Makes the tests 5 and 6 and reads a strand of at most L letters that tests 1 to 4 take, with at most S symbols of messages.
fn read_within<const L: usize, const S: usize>(
    order: &Order,
    letters: &[u8],
    message: &mut [u8],
    sheet: &mut [u8],
) -> Result<Counts, Refusal>
    requires received { received_test order.now (length letters.now) (Ok tt) ≡ Ok tt }
    requires letters { (length letters.now ≤ L) × (L < reach) }
    requires symbols { (4 * order.now.b ≤ S) × (S < reach) }
    ensures { (result, (message.new, sheet.new)) ≡ read_call order.now letters.now message.old sheet.old }
{
    if order.is_short_for(message.len(), sheet.len()) {
        return Err(Refusal::ShortBuffer);
    }
    let mut numbers = [0u8; L];
    let letters = Letters::read(letters, &mut numbers)?;
    Ok(read_segments::<S>(order, &letters, message, sheet))
}

// Reads a strand: the received `letters`, written on the layout `lengths` for B = `b`. The B bytes of the message go to the front of
// `message`, zeros where a segment is lost; the sheet goes to the front of `sheet`, two bits for each segment, the first in the highest
// bits: 0 clean, 1 corrected, 2 lost. Answers how many segments are clean, corrected and lost. N is read as A, and a segment with an N is not clean.
// Turned down, in this order: 1 a length is not 2 to 256; 2 B is not 1 to 512; 3 there are no lengths or more than 64, or they do not
// sum to 4B; 4 there are more than 4,096 letters; 5 `message` has fewer than B bytes, or `sheet` fewer than one for each four
// segments; 6 a byte is none of A, T, C, G and N, with the first such place.
// The bytes behind the message and behind the sheet are untouched; a refusal leaves both buffers as they were.
// The second clause is demand 3: letters with at most one edit in each segment, N among the letters, give the message that was written, and
// nothing lost.
pub fn read(
    lengths: &[u16],
    b: u32,
    letters: &[u8],
    message: &mut [u8],
    sheet: &mut [u8],
) -> Result<Counts, Refusal>
    ensures exact { let o = order lengths.now b in
        (result, (message.new, sheet.new)) ≡ read_call o letters.now message.old sheet.old }
    ensures one_edit { let o = order lengths.now b in
        Demand3Call o letters.now message.old sheet.old (result, (message.new, sheet.new)) }
{
    received_test(lengths, b, letters.len())?;
    let order = Order::known(lengths, b);
    if letters.len() <= SHORT_LETTERS && b <= SHORT_BYTES {
        read_within::<1280, 512>(&order, letters, message, sheet)
    } else {
        read_within::<4096, 2048>(&order, letters, message, sheet)
    }
}
