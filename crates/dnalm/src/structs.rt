// What the calls answer under C names: structs of numbers.

// What a writing answers: how many bytes were written; of a strand, its letters.
#[repr(C)]
#[derive(Clone, Copy, Debug, Default, PartialEq, Eq)]
pub struct Written {
    pub refusal: u32,
    pub place: usize,
    pub length: usize,
}

// What a reading answers: how many segments are clean, corrected and lost.
#[repr(C)]
#[derive(Clone, Copy, Debug, Default, PartialEq, Eq)]
pub struct Counts {
    pub refusal: u32,
    pub place: usize,
    pub clean: u32,
    pub corrected: u32,
    pub lost: u32,
}

// What a piece call answers: where the piece starts in the letters, and how many letters it has.
#[repr(C)]
#[derive(Clone, Copy, Debug, Default, PartialEq, Eq)]
pub struct Piece {
    pub refusal: u32,
    pub place: usize,
    pub start: usize,
    pub length: usize,
}

// What a verdict call answers: the kind of what is said of a segment, 0 clean, 1 unknown, 2 sub, 3 del, 4 ins, 5 lost in a step, 6 lost for want of a
// start; the place of its edit in the written segment, from 0, and its letter in ASCII; the step that lost it. What it does not have is 0.
#[repr(C)]
#[derive(Clone, Copy, Debug, Default, PartialEq, Eq)]
pub struct Said {
    pub refusal: u32,
    pub place: usize,
    pub kind: u32,
    pub at: usize,
    pub letter: u8,
    pub step: u8,
}

// What reading a label answers: B, and the layout, which is the first `count` of `lengths`.
#[repr(C)]
#[derive(Clone, Copy, Debug, PartialEq, Eq)]
pub struct Order {
    pub refusal: u32,
    pub b: u32,
    pub count: usize,
    pub lengths: [u16; 64],
}

// What a quote answers: letters to order and bytes of sheets, both for all strands together; the most starts that the scans of one reading try.
#[repr(C)]
#[derive(Clone, Copy, Debug, Default, PartialEq, Eq)]
pub struct Quoted {
    pub refusal: u32,
    pub letters: u32,
    pub bytes: u32,
    pub starts: u32,
}

// How many strands were read, and their segments by mark.
#[repr(C)]
#[derive(Clone, Copy, Debug, Default, PartialEq, Eq)]
pub struct Tally {
    pub strands: u32,
    pub clean: u32,
    pub corrected: u32,
    pub lost: u32,
}

// What adding to a tally answers: the four counts afterwards.
#[repr(C)]
#[derive(Clone, Copy, Debug, Default, PartialEq, Eq)]
pub struct Tallied {
    pub refusal: u32,
    pub strands: u32,
    pub clean: u32,
    pub corrected: u32,
    pub lost: u32,
}
