// Steps 2 to 7: the separator, and the message or the step that loses it.

#![tactic(auto)]

ghost use Rattle.std.specs.Prelude.{◌≡◌, ◌+◌, ◌<◌, ◌≤◌, length, take, drop};
ghost use Rattle.code.specs.Bounds.{longest, widest, reach, Length, Received};
ghost use Rattle.code.specs.Limits.{most_letters};
ghost use Rattle.code.specs.Symbols.{Below};
ghost use Rattle.code.specs.Layers.{sum_of_places, width};
ghost use Rattle.code.specs.Links.{sent};
ghost use Rattle.code.specs.Reading.{separator_at, link_of, moved, message, repaired, message_at, message_without};
ghost use Rattle.layers.specs.LayerSums.{both};
ghost use Rattle.tail.specs.Tails.{IsTail};
ghost use Rattle.message.specs.MessageAnswers.{separator_as, shift_as, took_by, repaired_at, hit_at, whole_at, IsMessageResult};

use clean::syndrome_at;
use code::Link;
use copying::copy;
use layers::{Layer, Layers};
use places::comparisons::{is_at, three_equal};
use repair::summed::SummedLayer;
use repair::{mended_pair, repair_layer};
use tail::Tail;

// Where a separator stands: in its place, one place early or one late.
#[derive(Clone, Copy, Debug, PartialEq, Eq)]
pub enum Shift {
    Level,
    Early,
    Late,
}

impl Shift {
    // A place with the shift added, a small signed number.
    pub fn moved(self, place: usize) -> usize
        requires { (1 ≤ place) × (place < reach) }
        ensures { result ≡ moved (shift_as self) place }
    {
        let j: isize = match self {
            Shift::Level => 0,
            Shift::Early => -1,
            Shift::Late => 1,
        };
        (place as isize + j) as usize
    }
}

// The step that loses a message.
#[derive(Clone, Copy, Debug, PartialEq, Eq)]
pub struct Lost {
    pub step: u8,
}

// Step 2: where a separator stands, around k + 1 from d on.
pub fn find_separator(s: &[u8], d: usize, k: usize) -> Option<Shift>
    requires { Received s.now × Length k × (d ≤ length s.now + 2) }
    ensures { result ≡ separator_as (separator_at k (drop d s.now)) }
{
    if three_equal(s, d + Shift::Level.moved(k + 1)) {
        return Some(Shift::Level);
    }
    if three_equal(s, d + Shift::Early.moved(k + 1)) {
        return Some(Shift::Early);
    }
    if three_equal(s, d + Shift::Late.moved(k + 1)) {
        return Some(Shift::Late);
    }
    None
}

// The place after a separator that was found with a shift, the message being at d.
pub fn after_separator(d: usize, k: usize, shift: Shift) -> usize
    requires { (d ≤ most_letters + 2) × Length k }
    ensures { (result ≡ d + (moved (shift_as shift) (k + 1) + 3)) × (result + longest < reach) }
{
    d + (shift.moved(k + 1) + 3)
}

// The message is the symbols from a place on, whose tail is known.
fn taken_with(s: &[u8], from: usize, tail: Tail, out: &mut [u8]) -> Result<Tail, Lost>
    requires received { Received s.now × Length (length out.old) × (from + length out.old ≤ length s.now) }
    requires tail { IsTail (take (length out.old) (drop from s.now)) tail }
    ensures { IsMessageResult (message (take (length out.old) (drop from s.now))) out.new result }
{
    copy(s, from, out);
    Ok(tail)
}

// The message is the symbols from a place on.
fn taken(s: &[u8], from: usize, out: &mut [u8]) -> Result<Tail, Lost>
    requires { Received s.now × Length (length out.old) × (from + length out.old ≤ length s.now) }
    ensures { IsMessageResult (message (take (length out.old) (drop from s.now))) out.new result }
{
    let to = from + out.len();
    let tail = tail::tail_of(&s[from..to]);
    taken_with(s, from, tail, out)
}

// Step 6: with no separator the symbols at d, whose tail is known, if the check agrees.
fn without_separator(s: &[u8], d: usize, tail: Tail, out: &mut [u8]) -> Result<Tail, Lost>
    requires received { Received s.now × Length (length out.old) × (d + length out.old ≤ length s.now) }
    requires tail { IsTail (take (length out.old) (drop d s.now)) tail }
    ensures { IsMessageResult (message_without (length out.old) (drop d s.now)) out.new result }
{
    if is_at(tail.check, s, d + out.len()) {
        return taken_with(s, d, tail, out);
    }
    Err(Lost { step: 6 })
}

// The edit that a separator's shift names.
fn link_of(shift: Shift) -> Link
    ensures { result ≡ link_of (shift_as shift) }
{
    match shift {
        Shift::Level => Link::Changed,
        Shift::Early => Link::Less,
        Shift::Late => Link::More,
    }
}

// Step 7: both layers of the received symbols repaired, from their sums of places, with the syndromes that the written symbols hold.
fn repair_both(
    link: Link,
    received: &[u8],
    sums: Layers,
    written: &[u8],
    out: &mut [u8],
) -> Result<Tail, Lost>
    requires written { Length (length out.old) × (length written.now ≡ width (length out.old)) × Below 4 written.now }
    requires room { (length out.old ≡ sent link (length received.now)) × (length received.now ≤ longest + 1) }
    requires sums { sums ≡ both sum_of_places received.now }
    ensures { IsMessageResult (repaired link (length written.now) received.now written.now) out.new result }
{
    let numbers = layers::numbers(written);
    let high = SummedLayer {
        symbols: received,
        layer: Layer::High,
        sum: sums.high,
    };
    let low = SummedLayer {
        symbols: received,
        layer: Layer::Low,
        sum: sums.low,
    };
    let Some(high) = repair_layer(link, &high, numbers.high) else {
        return Err(Lost { step: 7 });
    };
    let Some(low) = repair_layer(link, &low, numbers.low) else {
        return Err(Lost { step: 7 });
    };
    mended_pair(link, received, high, low, out);
    Ok(tail::tail_given(out, written))
}

// The sums of places of the received symbols, from those of the k symbols at d: the same, or of one symbol less or more.
fn received_sums(s: &[u8], d: usize, k: usize, shift: Shift, sums: Layers) -> Layers
    requires received { Received s.now × Length k × (d + k ≤ length s.now) × (d + moved (shift_as shift) k ≤ length s.now) }
    requires sums { sums ≡ both sum_of_places (take k (drop d s.now)) }
    ensures { result ≡ both sum_of_places (take (moved (shift_as shift) k) (drop d s.now)) }
{
    let to = d + k;
    match shift {
        Shift::Level => sums,
        Shift::Early => layers::without_last(&s[d..to], sums),
        Shift::Late => layers::with_last(&s[d..to + 1], sums),
    }
}

// Step 7: both layers repaired from the received symbols at d, with the syndrome written after the separator; the k symbols at d are summed.
fn repair_at(s: &[u8], d: usize, shift: Shift, sums: Layers, out: &mut [u8]) -> Result<Tail, Lost>
    requires received { Received s.now × Length (length out.old) }
    requires inside { d + (moved (shift_as shift) (length out.old + 1) + 3) ≤ length s.now }
    requires sums { sums ≡ both sum_of_places (take (length out.old) (drop d s.now)) }
    ensures { IsMessageResult (repaired_at (shift_as shift) (length out.old) (drop d s.now)) out.new result }
{
    let k = out.len();
    let t = layers::width_of(k);
    let after = after_separator(d, k, shift);
    let end = after + t;
    if s.len() < end {
        return Err(Lost { step: 7 });
    }
    let to = d + shift.moved(k);
    let received = received_sums(s, d, k, shift, sums);
    repair_both(link_of(shift), &s[d..to], received, &s[after..end], out)
}

// The symbols at d are taken as they stand: the check agrees, where the separator is in its place, or the syndrome.
fn agrees(s: &[u8], d: usize, k: usize, shift: Shift, tail: Tail) -> bool
    requires { Received s.now × Length k × (d ≤ length s.now) × (0 < tail.width) × (tail.width ≤ widest) }
    ensures { result ≡ took_by (shift_as shift) k (drop d s.now) tail }
{
    (shift == Shift::Level && is_at(tail.check, s, d + k))
        || syndrome_at(tail, s, after_separator(d, k, shift))
}

// Steps 4 and 5: the symbols at d, with their sums and tail, or the repaired ones, where the separator was found with a shift.
fn at_separator(
    s: &[u8],
    d: usize,
    shift: Shift,
    sums: Layers,
    tail: Tail,
    out: &mut [u8],
) -> Result<Tail, Lost>
    requires received { Received s.now × Length (length out.old) }
    requires inside { d + (moved (shift_as shift) (length out.old + 1) + 3) ≤ length s.now }
    requires sums { sums ≡ both sum_of_places (take (length out.old) (drop d s.now)) }
    requires tail { IsTail (take (length out.old) (drop d s.now)) tail }
    ensures { IsMessageResult (message_at (shift_as shift) (length out.old) (drop d s.now)) out.new result }
{
    if agrees(s, d, out.len(), shift, tail) {
        return taken_with(s, d, tail, out);
    }
    repair_at(s, d, shift, sums, out)
}

// Step 3: the marker is hit; the symbols before the check, which stands before the separator.
pub fn read_hit(s: &[u8], p: usize, found: Option<Shift>, out: &mut [u8]) -> Result<Tail, Lost>
    requires received { Received s.now × Length (length out.old) × (p ≤ length s.now) }
    requires found { found ≡ separator_as (separator_at (length out.old) (drop (p + 2) s.now)) }
    ensures { IsMessageResult (hit_at (length out.old) p s.now) out.new result }
{
    match found {
        Some(shift) => taken(s, p + shift.moved(2), out),
        None => Err(Lost { step: 3 }),
    }
}

// Steps 4 to 7: the marker is whole; the symbols at d, whose sums and tail are known, or the repaired ones.
pub fn read_whole(
    s: &[u8],
    d: usize,
    found: Option<Shift>,
    sums: Layers,
    tail: Tail,
    out: &mut [u8],
) -> Result<Tail, Lost>
    requires received { Received s.now × Length (length out.old) × (d + length out.old ≤ length s.now) }
    requires found { found ≡ separator_as (separator_at (length out.old) (drop d s.now)) }
    requires sums { sums ≡ both sum_of_places (take (length out.old) (drop d s.now)) }
    requires tail { IsTail (take (length out.old) (drop d s.now)) tail }
    ensures { IsMessageResult (whole_at (length out.old) d s.now) out.new result }
{
    match found {
        Some(shift) => at_separator(s, d, shift, sums, tail, out),
        None => without_separator(s, d, tail, out),
    }
}
