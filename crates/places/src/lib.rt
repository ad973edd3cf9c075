// What reading compares: tests at a place, words of four and eight symbols, and offsets of a place.

#![tactic(auto)]

pub mod comparisons;
pub mod offsets;
pub mod words;
