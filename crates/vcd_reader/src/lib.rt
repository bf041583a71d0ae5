// Reads a recording from bytes, from an offset up to the next command. What the words of a text do is said in the crate recording.
#![tactic(auto)]

pub mod advancing;
mod changes;
mod keywords;
mod runs;
mod skipping;

use recording::{Reader, Strobe, Vector};

// The bits that are a word from an offset on: where they end, and their number, held at 65,535, or None if one of them is x or z.
#[derive(Clone, Copy)]
pub struct Bits {
    pub end: usize,
    pub number: Option<u16>,
}

// A code, and where it ends.
#[derive(Clone, Copy)]
pub struct Coded {
    pub end: usize,
    pub code: u32,
}

// A time, and where its decimal digits end.
#[derive(Clone, Copy)]
pub struct Timed {
    pub end: usize,
    pub time: u64,
}

// The bits of a vector with its code, and where the next word begins.
#[derive(Clone, Copy)]
pub struct Given {
    pub end: usize,
    pub code: u32,
    pub vector: Vector,
}

// Where a word ends that begins or ends a block, or a comment, and whether it begins a block.
#[derive(Clone, Copy)]
pub struct Turned {
    pub end: usize,
    pub block: bool,
}

// Where words are read that give no command, and the reader after them.
#[derive(Clone, Copy)]
pub struct Passed {
    pub end: usize,
    pub reader: Reader,
}

// Where the reading of a text has come: the reader, the offset at which it goes on, and the command that its last word gave, with the
// time of the stamp that the word ended.
#[derive(Clone, Copy)]
pub struct Advanced {
    pub reader: Reader,
    pub end: usize,
    pub strobe: Option<Strobe>,
    pub time: u64,
}
