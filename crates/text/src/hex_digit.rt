// One hexadecimal digit. The digits below ten are the decimal ones.
ghost use Rattle.std.specs.Prelude.{◌≡◌, ◌<◌};
ghost use Rattle.text.specs.HexDigit.{value_in, digit_of};

// The value of a digit of either case; none for a byte that is no digit.
#[tactic(auto, unfolding(crate::specs::HexDigit::value_of))]
pub fn value_of(c: u8) -> Option<u8>
    ensures { result ≡ value_in c }
{
    match c {
        b'0'..=b'9' => Some(c - b'0'),
        b'A'..=b'F' => Some(c - b'A' + 10),
        b'a'..=b'f' => Some(c - b'a' + 10),
        _ => None,
    }
}

// The upper-case digit of a value.
#[tactic(auto, unfolding(crate::specs::HexDigit::digit_of))]
pub fn digit_of(v: u8) -> u8
    requires { v < 16 }
    ensures { result ≡ digit_of v }
{
    if v < 10 { b'0' + v } else { b'A' + (v - 10) }
}
