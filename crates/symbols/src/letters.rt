// The letters of a received strand as numbers.
ghost use Rattle.std.specs.Prelude.{◌≡◌, ◌≤◌, IfErr, IfOk, ℕ, length};
ghost use Rattle.code.specs.Limits as L;
ghost use Rattle.code.specs.Symbols as S;
ghost use Rattle.code.specs.Symbols.{decoded, has_unknown, legible};
ghost use Rattle.code.specs.declared.Decoded.TheVariants as D;
ghost use Rattle.code.specs.declared.Refusal.TheVariants.{ForeignLetter};

use crate::decode;
use code::{Decoded, Refusal};
use std::marker::Model;

// Letters throughout, as numbers: 0 to 3 for the symbols and 4 for N; and whether an N is among them.
#[derive(Drop)]
pub struct Letters<'a> {
    numbers: &'a [u8],
    unknown: bool,
}

impl<'a> Model for Letters<'a> {
    ghost use Rattle.std.specs.Prelude.{◌≡◌, ◌≤◌, List, ℕ, length};
    ghost use Rattle.code.specs.Limits as L;
    ghost use Rattle.code.specs.Symbols as S;

    ghost Value = { List ℕ };

    ghost view = { λ s. s.numbers.now };

    ghost invariant = { λ s. (length s.numbers.now ≤ L.most_letters) × (s.unknown ≡ S.has_unknown s.numbers.now) };
}

impl<'a> Letters<'a> {
    // The letters as numbers, in `room`, which is lent; turned down where a byte is no letter, with the first such place.
    pub fn read(letters: &[u8], room: &'a mut [u8]) -> Result<Letters<'a>, Refusal>
        requires { (length letters.now ≤ length room.old) × (length letters.now ≤ L.most_letters) }
        ensures ok { IfOk result (λ n. (n ≡ legible letters.now) × (decoded letters.now ≡ D.Whole (has_unknown n))) }
        ensures err { IfErr result (λ r. (i : ℕ) × (r ≡ ForeignLetter i) × (decoded letters.now ≡ D.Foreign i)) }
    {
        let count = letters.len();
        match decode(letters, room) {
            Decoded::Whole(unknown) => Ok(Letters {
                numbers: &room[..count],
                unknown,
            }),
            Decoded::Foreign(i) => Err(Refusal::ForeignLetter(i)),
        }
    }

    // The letters as numbers.
    pub fn numbers(&self) -> &'a [u8]
        ensures value { result.now ≡ self.now }
        ensures fit { length result.now ≤ L.most_letters }
    {
        self.numbers
    }

    // Whether an N is among them.
    pub fn has_unknown(&self) -> bool
        ensures { result ≡ S.has_unknown self.now }
    {
        self.unknown
    }
}
