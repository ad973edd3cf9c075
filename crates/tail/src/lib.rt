// What follows a message in its segment: check, separator and syndrome.

#![tactic(auto)]

ghost use Rattle.std.specs.Prelude.{◌≡◌, ◌+◌, ◌-◌, ◌*◌, ◌<◌, ◌≤◌, length, get_or};
ghost use Rattle.code.specs.Bounds.{longest, widest, Length};
ghost use Rattle.code.specs.Layers.{bit, digit};
ghost use Rattle.code.specs.Segment.{check, either, sep, syndrome_of};
ghost use Rattle.layers.specs.LayerSums.{sums_of};
ghost use Rattle.tail.specs.Tails.{IsTail, tail_of};

use layers::Summed;

// What follows a message: check, separator, and the syndromes of both layers, in `width` bits each.
#[derive(Clone, Copy, Debug, PartialEq, Eq)]
pub struct Tail {
    pub check: u8,
    pub separator: u8,
    pub width: usize,
    pub high: usize,
    pub low: usize,
}

// 1 where x is b or c, and 0 elsewhere.
fn is_either(x: u8, b: u8, c: u8) -> u8
    ensures { (result ≡ digit (either x b c)) × (result < 2) }
{
    u8::from((x == b) | (x == c))
}

// The separator function Sep, formed without a branch: one more than a + 2 where that is taken, and two more where a + 3 is taken as well.
pub fn sep_of(a: u8, b: u8, c: u8) -> u8
    requires { a < 4 }
    ensures { result ≡ sep a b c }
{
    let two = (a + 2) % 4;
    let three = (a + 3) % 4;
    let taken = is_either(two, b, c);
    let both = taken & is_either(three, b, c);
    (two + taken + 2 * both) % 4
}

// The check of a message: the sum of its symbols modulo 4.
pub fn check_of(message: &[u8]) -> u8
    requires { length message.now ≤ longest }
    ensures { result ≡ check message.now }
{
    let mut sum: usize = 0;
    for &x in message {
        sum += usize::from(x);
    }
    (sum % 4) as u8
}

// The symbol of two numbers' bits at place i, from the last.
fn symbol_at(high: usize, low: usize, i: usize) -> u8
    requires { i < widest }
    ensures { result ≡ 2 * digit (bit i high) + digit (bit i low) }
{
    (2 * ((high >> i) & 1) + ((low >> i) & 1)) as u8
}

// The symbol at place i of a tail.
pub fn symbol_in(tail: Tail, i: usize) -> u8
    requires { (i < 4 + tail.width) × (tail.width ≤ widest) }
    ensures { result ≡ get_or (tail_of tail) i 0 }
{
    match i {
        0 => tail.check,
        1..=3 => tail.separator,
        _ => symbol_at(tail.high, tail.low, tail.width + 3 - i),
    }
}

// What follows a message whose check and sums of places are known.
pub fn tail_with(message: &[u8], sums: Summed) -> Tail
    requires { Length (length message.now) × (sums ≡ sums_of message.now) }
    ensures { IsTail message.now result }
{
    let check = sums.check;
    let width = layers::width_of(message.len());
    let s = layers::syndromes(message, sums.places);
    let first = symbol_at(s.high, s.low, width - 1);
    let second = symbol_at(s.high, s.low, width - 2);
    let separator = sep_of(check, first, second);
    Tail {
        check,
        separator,
        width,
        high: s.high,
        low: s.low,
    }
}

// What follows a message.
pub fn tail_of(message: &[u8]) -> Tail
    requires { Length (length message.now) }
    ensures { IsTail message.now result }
{
    let sums = layers::sums(message);
    tail_with(message, sums)
}

// What follows a message whose syndrome symbols are known.
pub fn tail_given(message: &[u8], written: &[u8]) -> Tail
    requires { Length (length message.now) × (written.now ≡ syndrome_of message.now) }
    ensures { IsTail message.now result }
{
    let check = check_of(message);
    let separator = sep_of(check, written[0], written[1]);
    let s = layers::numbers(written);
    Tail {
        check,
        separator,
        width: written.len(),
        high: s.high,
        low: s.low,
    }
}

// The last syndrome symbol of a tail.
pub fn last_of(tail: Tail) -> u8
    requires { (0 < tail.width) × (tail.width ≤ widest) }
    ensures { result ≡ get_or (tail_of tail) (3 + tail.width) 0 }
{
    symbol_at(tail.high, tail.low, 0)
}
