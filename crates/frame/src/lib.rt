// The form of a line, in numbers that the reader and the sender share: each is that of its definition in specs/Line.antt.
#![tactic(auto)]

// The longest line, with its marker and its end.
pub const LONGEST: usize = 127;

// The byte that ends a line.
pub const NEWLINE: u8 = 0x0A;

// The most raw bytes that one frame carries.
pub const RAW_MOST: usize = (LONGEST - 3) / 4 * 3;

// The marker of a packet's first frame.
pub const INITIAL: [u8; 2] = [0x06, 0x09];

// The marker of its later frames.
pub const PARTIAL: [u8; 2] = [0x04, 0x14];
