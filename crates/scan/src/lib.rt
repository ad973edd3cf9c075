// The search for a clean segment about a place.

#![tactic(auto)]

ghost use Rattle.std.specs.Prelude.{◌≡◌, ◌*◌, ◌<◌, ◌≤◌, length, IfSome};
ghost use Rattle.code.specs.Symbols.{as_symbols};
ghost use Rattle.code.specs.Limits.{most_letters};
ghost use Rattle.code.specs.Bounds.{reach, Length};
ghost use Rattle.code.specs.Strands.{window};
ghost use Rattle.scan.specs.Scans.{letter_before, first_at_most, searched, next_place};

use clean::marker_stands;
use places::comparisons::three_equal;
use places::offsets::moved_by;
use segment::size_of;
use symbols::has_unknown;
use tail::{symbol_in, tail_of};

// Where reading goes on, with the symbol before that start; whether a clean segment is known to stand there, and how many are passed before it; or that
// no start is found. Each case goes by its name: an Option in an Option would read no plainer.
#[derive(Clone, Copy, Debug, PartialEq, Eq)]
pub enum Next {
    At(usize, u8),
    Clean(usize, u8, u16),
    Nowhere,
}

impl Next {
    // The place where reading goes on, n where no start is found.
    pub fn place(self, n: usize) -> usize
        ensures { result ≡ next_place self n }
    {
        match self {
            Next::At(at, _) | Next::Clean(at, _, _) => at,
            Next::Nowhere => n,
        }
    }
}

// The symbol before a start: the given one, or that of the received letter.
fn letter_before(letters: &[u8], at: usize, given: Option<u8>) -> u8
    requires { (0 < at) × (at < length letters.now) }
    ensures { result ≡ letter_before given (as_symbols letters.now) at }
{
    match given {
        Some(f) => f,
        None => letters[at - 1] & 3,
    }
}

// The number, in the order 0, −1, +1, −2, +2 and so on, of the first place about n that is at most `last`.
fn first_at_most(n: usize, last: usize) -> usize
    requires { n < reach }
    ensures { result ≡ first_at_most n last }
{
    if last < n {
        return 2 * (n - last) - 1;
    }
    0
}

// The first start about `centre` places behind `from`, `wide` to each side, where a clean segment of k message symbols stands in the letters; an N is no
// letter of one. The symbol before the start is the given one, or the received one. The answer says that `passed` segments are passed.
// Numbers apart: with the window as a struct a scan is slower.
pub fn find_clean(
    letters: &[u8],
    from: usize,
    centre: usize,
    k: usize,
    wide: usize,
    given: Option<u8>,
    passed: u16,
) -> Next
    requires received { length letters.now ≤ most_letters }
    requires window { (from ≤ length letters.now) × (wide ≤ centre) × (2 * centre < reach) }
    requires length { Length k × IfSome given (λ f. f < 4) }
    ensures { result ≡ searched given k passed from (window centre wide) letters.now }
{
    let size = size_of(true, k);
    if letters.len() < from + size {
        return Next::Nowhere;
    }
    // Starts behind the last one with room are passed over together.
    let last = letters.len() - (from + size);
    let mut tried = first_at_most(centre, last);
    let mut step = 1;
    // A labelled loop, left at the first mismatch: a form by place (docs/DECISIONS.md).
    'starts: loop {
        if 2 * wide < tried {
            break Next::Nowhere;
        }
        let offset = moved_by(centre, tried);
        tried += step;
        if last < offset {
            step = 2;
            continue 'starts;
        }
        // Two equal letters are its marker, the first of its message is another, and three equal ones are its separator.
        let at = from + offset;
        let mark = letters[at];
        if mark != letters[at + 1] {
            continue 'starts;
        }
        if mark == letters[at + 2] {
            continue 'starts;
        }
        let behind = at + (2 + k);
        if !three_equal(letters, behind + 1) {
            continue 'starts;
        }
        if offset == 0 {
            continue 'starts;
        }
        let before = letter_before(letters, at, given);
        if !marker_stands(letters, at, true, before) {
            continue 'starts;
        }
        if has_unknown(&letters[at + 2..behind]) {
            continue 'starts;
        }
        let tail = tail_of(&letters[at + 2..behind]);
        for j in 0..4 + tail.width {
            if symbol_in(tail, j) != letters[behind + j] {
                continue 'starts;
            }
        }
        break Next::Clean(at, before, passed);
    }
}
