// The label calls: an order in bits, the most significant first, in three editions.

#![tactic(auto)]

mod bit_fields;
mod editions;

ghost use Rattle.std.specs.Prelude.{◌≡◌, true, false, [], ◌++◌, ◌+◌, ◌-◌, ◌*◌, ◌/◌, ◌≤◌, ◌<◌, min, eqb, ltb, length, take, drop, replicate, Ok, Err};
ghost use Rattle.code.specs.Limits.{most_segments, old_length, old_bytes};
ghost use Rattle.code.specs.Order.{order};
ghost use Rattle.code.specs.Label as L;
ghost use Rattle.code.specs.Label.{in_bits, from_bits, listing, old_bits, test_in, label_call, labelled, answer_to, label_read};
ghost use Rattle.code.specs.Conversion.{convert_call};
ghost use Rattle.label.specs.Editions.{edition_number, Names};
ghost use Rattle.label.specs.PutBits.{put_call};

use bit_fields::{length_at, number_at, put_bits};
use code::{Labelled, Refusal};
use editions::{Edition, equal, too_large};
use refusal::order::Order;

// Writes an order in an edition that lists its lengths, 2 or 3.
fn put_listing(edition: Edition, order: &Order, out: &mut [u8]) -> Result<usize, Refusal>
    requires { (L.lists (edition_number edition) ≡ true) × (test_in (edition_number edition) order.now ≡ Ok tt) }
    ensures { (result, out.new) ≡ put_call (listing (edition_number edition) order.now) out.old }
{
    let width = edition.bytes_bits();
    let lengths = order.lengths();
    let first = (((u32::from(edition) << width) + order.bytes()) << 7) + lengths.len() as u32;
    put_bits(first, 4 + width + 7, edition.length_bits(), lengths, out)
}

// Writes an order that is not too large for the old editions: in edition 1 for equal lengths, in 2 for others. Inlined, since the call costs a third of
// a short label.
#[inline(always)]
fn put_old(order: &Order, out: &mut [u8]) -> Result<usize, Refusal>
    requires { L.too_large order.now ≡ false }
    ensures { (result, out.new) ≡ put_call (old_bits order.now) out.old }
{
    let lengths = order.lengths();
    if equal(lengths) {
        let first = (1 << 28) + (length_at(lengths, 0) << 21) + (order.bytes() << 13);
        return put_bits(first, 32, 7, &[], out);
    }
    put_listing(Edition::Two, order, out)
}

// Writes the label of an order at the front of `out` and answers how many bytes it has: in the oldest edition that carries the order.
// Edition 1 carries equal lengths up to 64 and B up to 128: 1 in 4 bits, k in 7, B in 8, and 13 zero bits, four bytes. Edition 2
// carries other lengths up to 64 and B up to 128: 2 in 4 bits, B in 8, the number of lengths in 7, each length in 7, and zero bits to
// the end of the last byte. Edition 3 carries all others: 3 in 4 bits, B in 10, the number of lengths in 7, each length in 9, and
// zero bits to the end of the last byte.
// Turned down, in this order: 1 a length is not 2 to 256; 2 B is not 1 to 512; 3 there are no lengths or more than 64, or they do
// not sum to 4B; 5 `out` is shorter than the label.
// The bytes of `out` behind the label are untouched; a refusal leaves all of `out` as it was.
pub fn write(lengths: &[u16], b: u32, out: &mut [u8]) -> Result<usize, Refusal>
    ensures { let o = order lengths.now b in (result, out.new) ≡ label_call o out.old }
{
    let order = Order::new(lengths, b)?;
    if too_large(&order) {
        return put_listing(Edition::Three, &order, out);
    }
    put_old(&order, out)
}

// The edition that a label names.
fn edition_of(bytes: &[u8]) -> Result<Edition, Refusal>
    requires { 1 ≤ length bytes.now }
    ensures { Names (L.edition_of bytes.now) result }
{
    Edition::try_from(number_at(bytes, 0, 4))
}

// Where the lengths end that a label lists whose first three bytes are there.
fn end_of_lengths(bytes: &[u8], edition: Edition) -> usize
    requires { (3 ≤ length bytes.now) × (edition_number edition ≡ L.edition_of bytes.now) }
    ensures { result ≡ L.end_of_lengths bytes.now }
{
    let width = edition.bytes_bits();
    let count = number_at(bytes, 4 + width, 7) as usize;
    11 + width + edition.length_bits() * count
}

// How many bytes a label needs whose first three are there.
fn needed(bytes: &[u8]) -> usize
    requires { 3 ≤ length bytes.now }
    ensures { result ≡ L.needed bytes.now }
{
    match edition_of(bytes) {
        Ok(edition) if edition.lists() => (end_of_lengths(bytes, edition) + 7) / 8,
        _ => 4,
    }
}

// Whether the bytes are as many as the label that they begin needs. Nothing else of it is tested.
pub fn is_whole(bytes: &[u8]) -> bool
    ensures { let label = bytes.now in result ≡ eqb (length label) (L.needed label) }
{
    3 <= bytes.len() && bytes.len() == needed(bytes)
}

// A label has fewer bytes than it needs.
fn is_short(bytes: &[u8]) -> bool
    ensures { let label = bytes.now in result ≡ ltb (length label) (L.needed label) }
{
    bytes.len() < 3 || bytes.len() < needed(bytes)
}

// Lengths, and zeros behind them.
fn filled(lengths: &[u16]) -> [u16; 64]
    requires { length lengths.now ≤ most_segments }
    ensures { let ks = lengths.now in result ≡ ks ++ replicate (most_segments - length ks) 0 }
{
    let mut all = [0u16; 64];
    all[..lengths.len()].copy_from_slice(lengths);
    all
}

// The answer to a label of an edition that carries these lengths and B.
fn answer(edition: Edition, lengths: &[u16], b: u32) -> Result<Labelled, Refusal>
    ensures { let o = order lengths.now b in result ≡ answer_to (test_in (edition_number edition) o) o }
{
    edition.test(lengths, b)?;
    Ok(Labelled {
        b,
        count: lengths.len(),
        lengths: filled(lengths),
    })
}

// How often k goes into 4B: once at least, and 65 times at most, since more are refused alike.
fn times(k: u32, b: u32) -> usize
    requires { b < 256 }
    ensures { result ≡ min 65 (1 + (4 * b / k - 1)) }
{
    (4 * b).checked_div(k).map_or(1, |n| n.clamp(1, 65)) as usize
}

// The answer to a label of edition 1 that has the bytes that it needs.
fn read1(bytes: &[u8]) -> Result<Labelled, Refusal>
    requires { (4 ≤ length bytes.now) × (L.edition_of bytes.now ≡ 1) }
    ensures { result ≡ label_read bytes.now }
{
    if number_at(bytes, 19, 13) != 0 {
        return Err(Refusal::Label);
    }
    let k = number_at(bytes, 4, 7);
    let b = number_at(bytes, 11, 8);
    let n = times(k, b);
    let lengths = [k as u16; 65];
    answer(Edition::One, &lengths[..n], b)
}

// The first n numbers of `width` bits each, behind the first `at` bits.
fn listed(bytes: &[u8], at: usize, width: usize, n: usize) -> [u16; 127]
    requires { (n ≤ 127) × (at ≤ 32) × (width ≤ 9) × (at + width * n ≤ 8 * length bytes.now) }
    ensures { (take n result ≡ from_bits width n (drop at (in_bits 8 bytes.now))) × (length result ≡ 127) }
{
    let mut a = [0u16; 127];
    for i in 0..n {
        a[i] = number_at(bytes, at + width * i, width) as u16;
    }
    a
}

// The answer to a label of an edition that lists its lengths, 2 or 3, and has the bytes that it needs.
fn read_listing(bytes: &[u8], edition: Edition) -> Result<Labelled, Refusal>
    requires needed { L.needed bytes.now ≤ length bytes.now }
    requires edition { (edition_number edition ≡ L.edition_of bytes.now) × (L.lists (edition_number edition) ≡ true) }
    ensures { result ≡ label_read bytes.now }
{
    let wide = edition.bytes_bits();
    let b = number_at(bytes, 4, wide);
    let n = number_at(bytes, 4 + wide, 7) as usize;
    let end = end_of_lengths(bytes, edition);
    if number_at(bytes, end, 8 * ((end + 7) / 8) - end) != 0 {
        return Err(Refusal::Label);
    }
    let all = listed(bytes, 11 + wide, edition.length_bits(), n);
    let lengths = &all[..n];
    if edition.is_misplaced(lengths) {
        return Err(Refusal::Label);
    }
    answer(edition, lengths, b)
}

// Reads a label and answers its order: B, the number of lengths, and the lengths with zeros behind them. Bytes behind the label are
// not read.
// Turned down, in this order: 5 `bytes` is shorter than the label; 8 the edition is not 1, 2 or 3, a bit behind the last field is
// set, or edition 2 lists 1 to 64 equal lengths; 1 a length is not 2 to 256, in editions 1 and 2 not 2 to 64; 2 B is not 1 to 512, in
// editions 1 and 2 not 1 to 128; 3 there are no lengths or more than 64, or they do not sum to 4B.
// It writes to nothing.
pub fn read(bytes: &[u8]) -> Result<Labelled, Refusal>
    ensures { result ≡ label_read bytes.now }
{
    if is_short(bytes) {
        return Err(Refusal::ShortBuffer);
    }
    let edition = edition_of(bytes)?;
    if edition.lists() {
        return read_listing(bytes, edition);
    }
    read1(bytes)
}

// Writes the label on the other side at the front of `out` and answers how many bytes it has: of edition 1 or 2 that of edition 3, of
// edition 3 that of edition 1 for equal lengths and else of edition 2, with the same lengths and B. Bytes behind the label are not read.
// Turned down, in this order: 5, 8, 1, 2 and 3 as for a label that is read; 13 the label has edition 3, and a length is above 64 or B
// above 128; 5 `out` is shorter than the label on the other side.
// The bytes of `out` behind that label are untouched; a refusal leaves all of `out` as it was.
pub fn convert(bytes: &[u8], out: &mut [u8]) -> Result<usize, Refusal>
    ensures { (result, out.new) ≡ convert_call bytes.now out.old }
{
    let label = read(bytes)?;
    let order = Order::known(label.lengths(), label.b);
    if edition_of(bytes) != Ok(Edition::Three) {
        return put_listing(Edition::Three, &order, out);
    }
    if too_large(&order) {
        return Err(Refusal::TooLarge);
    }
    put_old(&order, out)
}
