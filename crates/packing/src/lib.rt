// Symbols and bytes, four symbols to a byte.

#![tactic(auto)]

ghost use Rattle.std.specs.Prelude.{◌≡◌, ◌++◌, ◌*◌, ◌/◌, ◌%◌, ◌<◌, ◌≤◌, length, drop};
ghost use Rattle.code.specs.Symbols.{Below, byte_of, symbols, bytes};
ghost use Rattle.packing.specs.Words.{word_of, Symbols};

use places::words::four_at;

// The byte of four symbols, the first in its highest two bits.
pub fn pack4(a: u8, b: u8, c: u8, d: u8) -> u8
    requires { (a < 4) × (b < 4) × (c < 4) × (d < 4) }
    ensures { result ≡ byte_of a b c d }
{
    (a << 6) | (b << 4) | (c << 2) | d
}

// The byte of four symbols, each in a byte of a word, the first in the lowest: by pairs, then the pair of pairs.
fn pack_word(word: u32) -> u8
    requires { Symbols word }
    ensures { result ≡ byte_of (word % 256) (word / 256 % 256) (word / 65536 % 256) (word / 16777216) }
{
    let pairs = ((word << 2) | (word >> 8)) & 0x000F000F;
    (((pairs << 4) | (pairs >> 16)) & 255) as u8
}

// The four symbols of a byte, each in a byte of a word, the first in the lowest: by halves, then the symbols of each.
fn spread(x: u8) -> u32
    ensures { result ≡ word_of (x / 64 % 4) (x / 16 % 4) (x / 4 % 4) (x % 4) }
{
    let byte = u32::from(x);
    let halves = ((byte << 16) | (byte >> 4)) & 0x000F000F;
    ((halves << 8) | (halves >> 2)) & 0x03030303
}

// The symbols of bytes, four to a byte, at the front of `out`.
pub fn unpack(bytes: &[u8], out: &mut [u8])
    requires { 4 * length bytes.now ≤ length out.old }
    ensures { out.new ≡ symbols bytes.now ++ drop (4 * length bytes.now) out.old }
{
    for i in 0..bytes.len() {
        out[4 * i..4 * i + 4].copy_from_slice(&spread(bytes[i]).to_le_bytes());
    }
}

// The bytes of symbols, four symbols to a byte, at the front of `out`.
pub fn pack(symbols: &[u8], out: &mut [u8])
    requires symbols { Below 4 symbols.now }
    requires room { length symbols.now / 4 ≤ length out.old }
    ensures { out.new ≡ bytes symbols.now ++ drop (length symbols.now / 4) out.old }
{
    for i in 0..symbols.len() / 4 {
        out[i] = pack_word(four_at(symbols, 4 * i));
    }
}
