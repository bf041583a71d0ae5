// The bytes of a state, of commands and of answers: in specs/ their definitions, here the lengths and places that the code uses. The
// crate decoding reads them, encoding writes them.
#![tactic(auto)]

use model::{CORES, SOURCES};

// A number of 16 bits.
pub const WORD_SIZE: usize = size_of::<u16>();

// The fields of a source, behind the word of its configured priority, and all its bytes.
pub const SOURCE_MASKED: usize = WORD_SIZE;

pub const SOURCE_PENDING: usize = SOURCE_MASKED + 1;

pub const SOURCE_DELIVERED: usize = SOURCE_PENDING + 1;

pub const SOURCE_PRIORITY: usize = SOURCE_DELIVERED + 1;

pub const SOURCE_DROPPED: usize = SOURCE_PRIORITY + WORD_SIZE;

pub const SOURCE_SIZE: usize = SOURCE_DROPPED + WORD_SIZE;

// The fields of a core's box, behind the word of the core's configured priority, and all bytes of a core.
pub const BOX_FILLED: usize = WORD_SIZE;

pub const BOX_DIRTY: usize = BOX_FILLED + 1;

pub const BOX_SOURCE: usize = BOX_DIRTY + 1;

pub const BOX_PRIORITY: usize = BOX_SOURCE + WORD_SIZE;

pub const CORE_SIZE: usize = BOX_PRIORITY + WORD_SIZE;

// Where the sources and the cores begin, and the state ends.
pub const SOURCES_FROM: usize = 2 * WORD_SIZE;

pub const CORES_FROM: usize = SOURCES_FROM + SOURCE_SIZE * SOURCES;

pub const STATE_SIZE: usize = CORES_FROM + CORE_SIZE * CORES;

// A command, and an answer, which is as long.
pub const COMMAND_SIZE: usize = 1 + 2 * WORD_SIZE;

// What a call answers where memory can't be read or doesn't fit, and the same where the answer is a count.
pub const UNREADABLE: u64 = 255;

pub const NO_COUNT: u64 = u64::MAX;
