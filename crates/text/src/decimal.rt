// Decimal digits.
ghost use Rattle.std.specs.Prelude.{◌≡◌, ◌++◌, ◌+◌, length};
ghost use Rattle.text.specs.Decimal.{decimal, three_named, three_room, number_in};

use crate::hex_digit::digit_of;
use crate::put::Text;

impl Text<'_> {
    ghost use Rattle.text.specs.Put.{Spare, Room, Grown};

    // The digits of a number.
    // By a recursion: std writes digits by write!, which cannot be shown to succeed.
    pub fn put_decimal(&mut self, n: u64)
        requires { Room self.old (decimal n) }
        ensures { Grown self.old (decimal n) self.new }
    {
        if n >= 10 {
            self.put_decimal(n / 10);
        }
        self.put(&[digit_of((n % 10) as u8)]);
    }

    // A word and a number in decimal digits.
    pub fn put_named(&mut self, word: &[u8], n: u64)
        requires { Room self.old (word.now ++ decimal n) }
        ensures { Grown self.old (word.now ++ decimal n) self.new }
    {
        self.put(word);
        self.put_decimal(n);
    }

    // Three numbers, each behind its word, and a line feed.
    pub fn put_three(&mut self, first: &[u8], a: u32, second: &[u8], b: u32, third: &[u8], c: u32)
        requires { Spare self.old (length first.now + length second.now + length third.now + three_room) }
        ensures { Grown self.old (three_named first.now a second.now b third.now c) self.new }
    {
        self.put_named(first, u64::from(a));
        self.put_named(second, u64::from(b));
        self.put_named(third, u64::from(c));
        self.put(b"\n");
    }
}

// The number that a text writes: one to five decimal digits and no other bytes, and at most 65,535; its first digits may be zeros.
pub fn number_of(text: &[u8]) -> Option<u16>
    ensures { result ≡ number_in text.now }
{
    if !(1..=5).contains(&text.len()) {
        return None;
    }
    let mut n: u16 = 0;
    for &c in text {
        if !c.is_ascii_digit() {
            return None;
        }
        n = n.checked_mul(10)?.checked_add(u16::from(c - b'0'))?;
    }
    Some(n)
}
