// Tests at a place of the received symbols. A place past the end matches nothing.
ghost use Rattle.std.specs.Prelude.{◌≡◌, [], ◌∷◌, ◌<◌, drop};
ghost use Rattle.code.specs.Bounds.{reach};
ghost use Rattle.code.specs.Reading.{is_prefix, two_equal, three_equal};

// The symbol x stands at the place.
pub fn is_at(x: u8, s: &[u8], at: usize) -> bool
    ensures { result ≡ is_prefix (x ∷ []) (drop at s.now) }
{
    at < s.len() && x == s[at]
}

// Two equal symbols stand at the place. By index: a pattern, `Some([x, y, ..]) if x == y` of `s.get(at..)`, is no shorter.
pub fn two_equal(s: &[u8], at: usize) -> bool
    requires { at < reach }
    ensures { result ≡ two_equal (drop at s.now) }
{
    at + 1 < s.len() && s[at] == s[at + 1]
}

// Three equal symbols stand at the place, by index as well.
pub fn three_equal(s: &[u8], at: usize) -> bool
    requires { at < reach }
    ensures { result ≡ three_equal (drop at s.now) }
{
    at + 2 < s.len() && s[at] == s[at + 1] && s[at + 1] == s[at + 2]
}

// The block stands at the place.
pub fn stands_at(block: &[u8], s: &[u8], at: usize) -> bool
    ensures { result ≡ is_prefix block.now (drop at s.now) }
{
    s[at.min(s.len())..].starts_with(block)
}
