// Hexadecimal digits, two to a byte, the higher first.
ghost use Rattle.std.specs.Prelude.{◌≡◌, true, ◌/◌, ◌≤◌, length};
ghost use Rattle.code.specs.Buffers.{over_front};
ghost use Rattle.text.specs.HexDigit.{no_digit, all_digits};
ghost use Rattle.text.specs.Hex.{hex_bytes, hex_digits, decode_call};

use crate::hex_digit::{digit_of, value_of};
use crate::put::Text;

// All bytes are digits.
pub fn all_digits(text: &[u8]) -> bool
    ensures { result ≡ all_digits no_digit text.now }
{
    text.iter().all(|&c| value_of(c).is_some())
}

// The bytes of digits, two to a byte, at the front of `out`.
fn put_bytes(digits: &[u8], out: &mut [u8])
    requires digits { all_digits no_digit digits.now ≡ true }
    requires room { length digits.now / 2 ≤ length out.old }
    ensures { out.new ≡ over_front (hex_bytes digits.now) out.old }
{
    for i in 0..digits.len() / 2 {
        let high = value_of(digits[2 * i]).unwrap();
        let low = value_of(digits[2 * i + 1]).unwrap();
        out[i] = 16 * high + low;
    }
}

// The bytes of a text of digits of either case, at the front of `out`, and their number. None, with `out` as it was, for an odd
// number of digits, a byte that is no digit, or more bytes than `out` has.
pub fn decode(text: &[u8], out: &mut [u8]) -> Option<usize>
    ensures { (result, out.new) ≡ decode_call text.now out.old }
{
    let n = text.len() / 2;
    if text.len() % 2 != 0 || !all_digits(text) || out.len() < n {
        return None;
    }
    put_bytes(text, out);
    Some(n)
}

impl Text<'_> {
    ghost use Rattle.text.specs.Put.{Room, Grown};

    // The upper-case digits of bytes.
    pub fn put_hex(&mut self, bytes: &[u8])
        requires { Room self.old (hex_digits bytes.now) }
        ensures { Grown self.old (hex_digits bytes.now) self.new }
    {
        for &x in bytes {
            self.put(&[digit_of(x / 16), digit_of(x % 16)]);
        }
    }
}
