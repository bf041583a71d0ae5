// A state, a word and a command read from bytes, and a command from its numbers. The bytes are those of layout/specs/Bytes.antt. Calls for
// the exports, which test lengths first.
#![tactic(auto)]

ghost use Rattle.std.specs.Prelude.{◌+◌, ◌*◌, ◌<◌, ◌≤◌, ◌≡◌, length};
ghost use Rattle.layout.specs.Commands.{command_of};
ghost use Rattle.layout.specs.Bytes.{word_at, source_size, core_size, state_size, source_from, core_from, state_from};
ghost use Rattle.layout.specs.Bytes.{sources_from, cores_from, source_flags, core_flags, is_state};
ghost use Rattle.model.specs.Records.{max_sources, max_cores};

use layout::{
    BOX_DIRTY, BOX_FILLED, BOX_PRIORITY, BOX_SOURCE, CORE_SIZE, CORES_FROM, SOURCE_DELIVERED,
    SOURCE_DROPPED, SOURCE_MASKED, SOURCE_PENDING, SOURCE_PRIORITY, SOURCE_SIZE, SOURCES_FROM,
    STATE_SIZE,
};
use model::{
    CORES, Command, Controller, Core, CoreAction, CoreId, SOURCES, Source, SourceAction, SourceId,
};
use std::array;

// The word at i, its lower byte first.
pub fn word_at(b: &[u8], i: usize) -> u16
    requires { i + 1 < length b.now }
    ensures { result ≡ word_at b.now i }
{
    u16::from_le_bytes([b[i], b[i + 1]])
}

// The source whose bytes begin at i.
fn source_from(b: &[u8], i: usize) -> Source
    requires { i + source_size ≤ length b.now }
    ensures { result ≡ source_from b.now i }
{
    records::source_with(
        word_at(b, i),
        b[i + SOURCE_MASKED] == 1,
        b[i + SOURCE_PENDING] == 1,
        b[i + SOURCE_DELIVERED] == 1,
        word_at(b, i + SOURCE_PRIORITY),
        word_at(b, i + SOURCE_DROPPED),
    )
}

// The core whose bytes begin at i.
fn core_from(b: &[u8], i: usize) -> Core
    requires { i + core_size ≤ length b.now }
    ensures { result ≡ core_from b.now i }
{
    let id = SourceId(word_at(b, i + BOX_SOURCE));
    records::core_with(
        word_at(b, i),
        records::box_with(
            b[i + BOX_FILLED] == 1,
            b[i + BOX_DIRTY] == 1,
            id,
            word_at(b, i + BOX_PRIORITY),
        ),
    )
}

// Source i + 1 and core k of a state, read where they lie in its bytes.
// Two functions and no trait: it would have the place, the size and the definition of each record as members, to share one line.
pub fn source_at(b: &[u8], i: usize) -> Source
    requires { (length b.now ≡ state_size) × (i < max_sources) }
    ensures { result ≡ source_from b.now (sources_from + source_size * i) }
{
    source_from(b, SOURCES_FROM + SOURCE_SIZE * i)
}

pub fn core_at(b: &[u8], k: usize) -> Core
    requires { (length b.now ≡ state_size) × (k < max_cores) }
    ensures { result ≡ core_from b.now (cores_from + core_size * k) }
{
    core_from(b, CORES_FROM + CORE_SIZE * k)
}

// The state that the bytes encode.
pub fn state_from(b: &[u8]) -> Controller
    requires { length b.now ≡ state_size }
    ensures { result ≡ state_from b.now }
{
    let mut s = records::reset(word_at(b, 0), word_at(b, 2));
    s.sources = array::from_fn(|i| source_at(b, i));
    s.cores = array::from_fn(|k| core_at(b, k));
    s
}

// Whether the three flags of the source at i are flags.
fn source_flags(b: &[u8], i: usize) -> bool
    requires { i + source_size ≤ length b.now }
    ensures { result ≡ source_flags b.now i }
{
    b[i + SOURCE_MASKED] <= 1 && b[i + SOURCE_PENDING] <= 1 && b[i + SOURCE_DELIVERED] <= 1
}

// Whether the two flags of the core at i are flags.
fn core_flags(b: &[u8], i: usize) -> bool
    requires { i + core_size ≤ length b.now }
    ensures { result ≡ core_flags b.now i }
{
    b[i + BOX_FILLED] <= 1 && b[i + BOX_DIRTY] <= 1
}

// Whether the bytes encode a state: the length is right, and each flag is 0 or 1.
pub fn is_state(b: &[u8]) -> bool
    ensures { result ≡ is_state b.now }
{
    b.len() == STATE_SIZE
        && (0..SOURCES).all(|i| source_flags(b, SOURCES_FROM + SOURCE_SIZE * i))
        && (0..CORES).all(|k| core_flags(b, CORES_FROM + CORE_SIZE * k))
}

// The command that three numbers name: its own, 0 to 7, the id or the core, and the priority. A number above 7 names none.
#[tactic(auto, unfolding(layout::specs::Commands::command_of))]
pub fn command(number: u16, at: u16, p: u16) -> Option<Command>
    ensures { result ≡ command_of number at p }
{
    match number {
        0 => Some(Command::OnSource(SourceId(at), SourceAction::SetSourcePriority(p))),
        1 => Some(Command::OnSource(SourceId(at), SourceAction::Mask)),
        2 => Some(Command::OnSource(SourceId(at), SourceAction::Unmask)),
        3 => Some(Command::OnCore(CoreId(at), CoreAction::SetCorePriority(p))),
        4 => Some(Command::OnSource(SourceId(at), SourceAction::Trigger)),
        5 => Some(Command::OnCore(CoreId(at), CoreAction::Claim)),
        6 => Some(Command::OnSource(SourceId(at), SourceAction::Redeliver)),
        7 => Some(Command::OnSource(SourceId(at), SourceAction::Complete)),
        _ => None,
    }
}
