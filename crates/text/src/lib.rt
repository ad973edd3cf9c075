// Text in a slice of bytes: its lines, and numbers and bytes as digits.

#![tactic(auto)]

pub mod decimal;
pub mod hex;
pub mod hex_digit;
pub mod lines;
pub mod put;

pub use put::Text;
