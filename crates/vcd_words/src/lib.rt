// The words of a recording, from bytes: what is kept of each, and what it does at its place. What the words of a text do is said in the
// crate recording.
#![tactic(auto)]

mod declarations;
mod marks;
pub mod readers;
pub mod scanning;
pub mod stamps;
pub mod words;

// The number that a word spells, as far as it is read.
#[derive(Clone, Copy)]
pub enum Number {
    // the digits after #, or of the whole word; None if it is above 2^64 - 1
    Decimal(Option<u64>),
    // the bits after b or B, held at 65,535; None if one of them is x or z
    Binary(Option<u16>),
}

// What is kept of a word under way, of one size whatever the word's length: the length, held at 256; the first byte; the last sixteen
// bytes, as two numbers of eight; and the number that the word spells, if it spells one.
#[derive(Clone, Copy)]
pub struct Partial {
    pub length: u16,
    pub first: u8,
    pub high: u64,
    pub low: u64,
    pub number: Option<Number>,
}

// Where a word ends, or the slice does, and what is kept of the last sixteen bytes.
#[derive(Clone, Copy)]
pub struct Spelled {
    pub end: usize,
    pub high: u64,
    pub low: u64,
}

// Where a word ends, or the slice does, and what is kept of the word.
#[derive(Clone, Copy)]
pub struct Scanned {
    pub end: usize,
    pub partial: Partial,
}

// The words that mean something by their spelling.
#[derive(Clone, Copy)]
pub enum Keyword {
    Date,
    Version,
    Comment,
    Timescale,
    Scope,
    Upscope,
    Var,
    EndDefinitions,
    End,
    DumpVars,
    DumpAll,
    DumpOn,
    DumpOff,
    Wire,
    Stb,
    Cmd,
    Core,
    Arg,
    Prio,
}

// How a keyword of at most sixteen bytes is kept.
#[derive(Clone, Copy, PartialEq, Eq)]
pub struct Spelling {
    pub length: u16,
    pub high: u64,
    pub low: u64,
}

// What is wrong with a text, by the number that a report gives.
#[derive(Clone, Copy)]
pub enum Misreading {
    // text against the grammar
    NotGrammar = 11,
    // a variable missing, repeated, of another name or width, or a code used twice
    BadVariable = 12,
    // an x or z where a value is needed
    NotKnown = 13,
    // time not rising
    NotRising = 14,
    // a command after the 65,535th
    TooMany = 19,
}
