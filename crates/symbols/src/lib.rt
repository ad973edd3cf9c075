// Letters and symbols.

#![tactic(auto)]

pub mod letters;

ghost use Rattle.std.specs.Prelude.{◌≡◌, true, ◌&&◌, ◌||◌, ◌<◌, ◌≤◌, length};
ghost use Rattle.code.specs.Symbols.{Below, letter_of, symbol_of, letters, legible, decoded, as_symbols, has_unknown};
ghost use Rattle.code.specs.Buffers.{over_front};
ghost use Rattle.symbols.specs.Letters.{is_letter, all_letters};

use code::{Decoded, Letter};

// The most letters of a strand that is read in smaller arrays, so that less is cleared for it.
pub const SHORT_LETTERS: usize = 1280;

// The most bytes B of a message whose symbols stand in a smaller array.
pub const SHORT_BYTES: u32 = 128;

// Whether a byte is a letter: A, T, C or G, or N where `unknown` says so.
fn is_letter(c: u8, unknown: bool) -> bool
    ensures { result ≡ is_letter unknown c }
{
    matches!(c, b'A' | b'T' | b'C' | b'G') || unknown && c == b'N'
}

// The number of a letter, from two of its bits, 0 to 3 for the symbols, or from three where it may be N, which is 4.
fn number_of(c: u8, unknown: bool) -> u8
    requires { is_letter unknown c ≡ true }
    ensures { letter_of result ≡ c }
{
    let symbol = (c & 2) + ((c >> 2) & 1);
    if unknown {
        symbol + ((c >> 3) & 1)
    } else {
        symbol
    }
}

// What a byte is: a letter with its symbol, N, or no letter.
pub fn symbol_of(letter: u8) -> Letter
    ensures { result ≡ symbol_of letter }
{
    if is_letter(letter, false) {
        return Letter::Symbol(number_of(letter, false));
    }
    if is_letter(letter, true) {
        return Letter::Unknown;
    }
    Letter::Foreign
}

// The letter of a symbol: A and the symbol, T 18 more than that and G 3 more; a sum, so that many are formed at once.
pub fn letter_of(symbol: u8) -> u8
    requires { symbol < 4 }
    ensures { result ≡ letter_of symbol }
{
    b'A' + symbol + 18 * u8::from(symbol == 1) + 3 * u8::from(symbol == 3)
}

// Symbols turned into their letters, in place.
pub fn spell(symbols: &mut [u8])
    requires { Below 4 symbols.old }
    ensures { symbols.new ≡ letters symbols.old }
{
    for x in symbols.iter_mut() {
        *x = letter_of(*x);
    }
}

// Whether all bytes are letters; every byte is looked at, so that many are at once.
fn all_letters(letters: &[u8], unknown: bool) -> bool
    ensures { result ≡ all_letters unknown letters.now }
{
    let mut all = true;
    for &c in letters {
        all &= is_letter(c, unknown);
    }
    all
}

// The numbers of letters throughout, at the front of `out`; `unknown` says whether an N may be among them.
fn decode_letters(letters: &[u8], out: &mut [u8], unknown: bool)
    requires letters { all_letters unknown letters.now ≡ true }
    requires room { length letters.now ≤ length out.old }
    ensures { out.new ≡ over_front (legible letters.now) out.old }
{
    for i in 0..letters.len() {
        out[i] = number_of(letters[i], unknown);
    }
}

// The numbers of letters at the front of `out`, up to the first byte that is no letter.
pub fn decode(letters: &[u8], out: &mut [u8]) -> Decoded
    requires { length letters.now ≤ length out.old }
    ensures { (result ≡ decoded letters.now) × (out.new ≡ over_front (legible letters.now) out.old) }
{
    if all_letters(letters, false) {
        decode_letters(letters, out, false);
        return Decoded::Whole(false);
    }
    if all_letters(letters, true) {
        decode_letters(letters, out, true);
        return Decoded::Whole(true);
    }
    let first = letters
        .iter()
        .position(|&c| !is_letter(c, true))
        .unwrap_or(letters.len());
    decode_letters(&letters[..first], out, true);
    Decoded::Foreign(first)
}

// The symbols that letters are read as, at the front of `out`: N as A.
pub fn as_symbols(letters: &[u8], out: &mut [u8])
    requires { length letters.now ≤ length out.old }
    ensures { out.new ≡ over_front (as_symbols letters.now) out.old }
{
    for i in 0..letters.len() {
        out[i] = letters[i] & 3;
    }
}

// Whether an N is among letters; every letter is looked at, so that many are at once.
pub fn has_unknown(letters: &[u8]) -> bool
    ensures { result ≡ has_unknown letters.now }
{
    let mut found = false;
    for &x in letters {
        found |= 3 < x;
    }
    found
}
