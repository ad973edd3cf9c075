// The type of an order that is taken.
ghost use Rattle.std.specs.Prelude.{◌≡◌, true, false, ◌-◌, ◌*◌, ◌<◌, ◌≤◌, IfErr, IfOk, Ok, Err, OnOk, length};
ghost use Rattle.code.specs.Layout.{Lengths};
ghost use Rattle.code.specs.Limits.{most_length, most_bytes, most_segments};
ghost use Rattle.code.specs.Order as O;
ghost use Rattle.code.specs.ReadCall as R;
ghost use Rattle.code.specs.Refusals.{outside};
ghost use Rattle.code.specs.declared.Refusal.TheVariants.{NoSuchSegment};

use crate::limits::MOST_LETTERS;
use code::Refusal;
use std::marker::Model;

// An order that passed the tests 1, 2 and 3: the layout of a strand, and the number B of its bytes.
#[derive(Drop)]
pub struct Order<'a> {
    lengths: &'a [u16],
    b: u32,
}

impl<'a> Model for Order<'a> {
    ghost use Rattle.code.specs.Order as O;

    ghost Value = { O.Order };

    ghost view = { λ s. O.order s.lengths.now s.b };

    ghost invariant = { λ s. O.Taken (O.order s.lengths.now s.b) };
}

impl<'a> Order<'a> {
    // The order of a layout and B; turned down by the tests 1, 2 and 3, where `other` says that the message's length is not B.
    pub fn tested(lengths: &'a [u16], b: u32, other: bool) -> Result<Order<'a>, Refusal>
        ensures ok { IfOk result (λ o. o ≡ O.order lengths.now b) }
        ensures taken { IfOk result O.Taken }
        ensures same { OnOk result (other ≡ false) }
        ensures err { IfErr result (λ r. O.order_test (O.order lengths.now b) other (Ok tt) ≡ Err r) }
    {
        crate::order_test(lengths, b, other)?;
        Ok(Order { lengths, b })
    }

    // The order of a layout and B, for a call without a message.
    pub fn new(lengths: &'a [u16], b: u32) -> Result<Order<'a>, Refusal>
        ensures ok { IfOk result (λ o. o ≡ O.order lengths.now b) }
        ensures taken { IfOk result O.Taken }
        ensures err { IfErr result (λ r. O.order_test (O.order lengths.now b) false (Ok tt) ≡ Err r) }
    {
        Order::tested(lengths, b, false)
    }

    // The order of a layout and B that are known to pass.
    pub fn known(lengths: &'a [u16], b: u32) -> Order<'a>
        requires { O.Taken (O.order lengths.now b) }
        ensures { result ≡ O.order lengths.now b }
    {
        Order { lengths, b }
    }

    // The lengths of the messages.
    pub fn lengths(&self) -> &'a [u16]
        ensures value { result.now ≡ self.now.lengths }
        ensures taken { O.Taken self.now }
        ensures within { Lengths most_length result.now }
        ensures some { 1 ≤ length result.now }
        ensures fit { length result.now ≤ most_segments }
    {
        self.lengths
    }

    // The number B of bytes.
    pub fn bytes(&self) -> u32
        ensures value { result ≡ self.now.b }
        ensures fit { result ≤ most_bytes }
    {
        self.b
    }

    // The number of segments.
    pub fn segments(&self) -> usize
        ensures value { result ≡ length self.now.lengths }
        ensures some { 1 ≤ result }
        ensures fit { result ≤ most_segments }
    {
        self.lengths.len()
    }

    // The number of symbols of the messages.
    pub fn symbols(&self) -> usize
        ensures value { result ≡ 4 * self.now.b }
        ensures taken { O.Taken self.now }
        ensures fit { result ≤ 4 * most_bytes }
    {
        4 * self.b as usize
    }

    // Test 4: more than 4,096 letters were received.
    pub fn received(&self, n: usize) -> Result<(), Refusal>
        ensures { result ≡ R.received_test self.now n (Ok tt) }
    {
        // From this use of a field the proof learns that the order is taken.
        let _ = &self.lengths;
        if MOST_LETTERS < n {
            return Err(Refusal::Overlong);
        }
        Ok(())
    }

    // Test 9: the place of a segment that is counted from 1, from 0.
    pub fn index_of(&self, segment: u32) -> Result<usize, Refusal>
        ensures ok { IfOk result (λ i. (1 ≤ segment) × (i ≡ segment - 1) × (i < length self.now.lengths)) }
        ensures err { IfErr result (λ r. (outside 1 (length self.now.lengths) segment ≡ true) × (r ≡ NoSuchSegment)) }
    {
        let number = segment as usize;
        if crate::outside(1, self.lengths.len(), number) {
            return Err(Refusal::NoSuchSegment);
        }
        Ok(number - 1)
    }

    // A message buffer of n bytes or a sheet buffer of m bytes is too short.
    pub fn is_short_for(&self, n: usize, m: usize) -> bool
        ensures { result ≡ R.short_buffers self.now n m }
    {
        crate::short_buffers(self.lengths, self.b, n, m)
    }
}
