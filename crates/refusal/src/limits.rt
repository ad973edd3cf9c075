// The limits of an order and of a received strand.

// The smallest length of a message.
pub const LEAST_LENGTH: u16 = 2;

// The largest length of a message.
pub const MOST_LENGTH: u16 = 256;

// The most bytes B of a strand's message.
pub const MOST_BYTES: usize = 512;

// The most segments of a strand.
pub const MOST_SEGMENTS: usize = 64;

// The most letters of a received strand.
pub const MOST_LETTERS: usize = 4096;

// The largest length that an old edition of the label carries.
pub const OLD_LENGTH: u16 = 64;

// The most bytes B that an old edition of the label carries.
pub const OLD_BYTES: usize = 128;
