// A state, a command and an answer written as bytes. The bytes are those of layout/specs/Bytes.antt. Calls for the exports, which test
// lengths first.
#![tactic(auto)]

ghost use Rattle.std.specs.Prelude.{◌+◌, ◌*◌, ◌<◌, ◌≤◌, ◌≡◌, ◌∷◌, ◌++◌, length};
ghost use Rattle.model.specs.Records.{max_sources, max_cores};
ghost use Rattle.std.proofs.lemmas.List.Edits.{sets};
ghost use Rattle.layout.specs.Commands.{source_number, core_number, source_level, core_level, number_of, target_of, level_of};
ghost use Rattle.layout.specs.Bytes.{word, flag_byte, source_size, core_size, state_size, command_size, answer_size};
ghost use Rattle.layout.specs.Bytes.{sources_from, cores_from, source_bytes, core_bytes, state_bytes, command_bytes, answer_row, packed_as};

use layout::{
    BOX_DIRTY, BOX_FILLED, BOX_PRIORITY, BOX_SOURCE, CORE_SIZE, CORES_FROM, SOURCE_DELIVERED,
    SOURCE_DROPPED, SOURCE_MASKED, SOURCE_PENDING, SOURCE_PRIORITY, SOURCE_SIZE, SOURCES_FROM,
};
use model::{
    CORES, Command, Controller, Core, CoreAction, SOURCES, Source, SourceAction, SourceId,
};

// A command's own number, 0 to 7, the id or the core, and the priority, 0 where it has none.
#[derive(Clone, Copy)]
struct Numbers {
    number: u8,
    target: u16,
    level: u16,
}

pub fn put_word(b: &mut [u8], i: usize, x: u16)
    requires { i + 1 < length b.old }
    ensures { b.new ≡ sets b.old i (word x) }
{
    [b[i], b[i + 1]] = x.to_le_bytes();
}

pub fn flag_byte(x: bool) -> u8
    ensures { result ≡ flag_byte x }
{
    u8::from(x)
}

fn put_source(b: &mut [u8], i: usize, r: Source)
    requires { i + source_size ≤ length b.old }
    ensures { b.new ≡ sets b.old i (source_bytes r) }
{
    put_word(b, i, r.configured);
    b[i + SOURCE_MASKED] = flag_byte(r.masked);
    b[i + SOURCE_PENDING] = flag_byte(r.pending);
    b[i + SOURCE_DELIVERED] = flag_byte(r.delivered);
    put_word(b, i + SOURCE_PRIORITY, r.priority);
    put_word(b, i + SOURCE_DROPPED, r.dropped);
}

fn put_core(b: &mut [u8], i: usize, c: Core)
    requires { i + core_size ≤ length b.old }
    ensures { b.new ≡ sets b.old i (core_bytes c) }
{
    put_word(b, i, c.configured);
    b[i + BOX_FILLED] = flag_byte(c.message.filled);
    b[i + BOX_DIRTY] = flag_byte(c.message.dirty);
    put_word(b, i + BOX_SOURCE, c.message.source.0);
    put_word(b, i + BOX_PRIORITY, c.message.priority);
}

// Source i + 1 and core k of a state, written where they lie in its bytes.
// Two functions and no trait: it would have the place, the size and the definition of each record as members, to share one line.
pub fn put_source_at(b: &mut [u8], i: usize, r: Source)
    requires { (length b.old ≡ state_size) × (i < max_sources) }
    ensures { b.new ≡ sets b.old (sources_from + source_size * i) (source_bytes r) }
{
    put_source(b, SOURCES_FROM + SOURCE_SIZE * i, r);
}

pub fn put_core_at(b: &mut [u8], k: usize, c: Core)
    requires { (length b.old ≡ state_size) × (k < max_cores) }
    ensures { b.new ≡ sets b.old (cores_from + core_size * k) (core_bytes c) }
{
    put_core(b, CORES_FROM + CORE_SIZE * k, c);
}

// The state's bytes, written over a buffer of just their length.
pub fn put_state(b: &mut [u8], s: Controller)
    requires { length b.old ≡ state_size }
    ensures { b.new ≡ state_bytes s }
{
    put_word(b, 0, s.n);
    put_word(b, 2, s.m);
    for (i, r) in s.sources.iter().enumerate() {
        put_source_at(b, i, *r);
    }
    for (k, c) in s.cores.iter().enumerate() {
        put_core_at(b, k, *c);
    }
}

// Number, id and cycles of an answer.
pub fn put_answer(b: &mut [u8], i: usize, number: u8, id: SourceId, cycles: u16)
    requires { i + answer_size ≤ length b.old }
    ensures { b.new ≡ sets b.old i (answer_row number id.0 cycles) }
{
    b[i] = number;
    put_word(b, i + 1, id.0);
    put_word(b, i + 3, cycles);
}

// The same as one number, in 8, 16 and 16 binary digits, the number lowest.
pub fn packed(number: u8, id: SourceId, cycles: u16) -> u64
    ensures { result ≡ packed_as number id.0 cycles }
{
    number as u64 + 256 * (id.0 as u64 + 65536 * (cycles as u64))
}

impl From<Command> for Numbers {
    ghost from_gives = { λ c x. (x.number ≡ number_of c) × (x.target ≡ target_of c) × (x.level ≡ level_of c) };

    fn from(c: Command) -> Numbers {
        let (number, target, level) = match c {
            Command::OnSource(id, SourceAction::SetSourcePriority(p)) => (0, id.0, p),
            Command::OnSource(id, SourceAction::Mask) => (1, id.0, 0),
            Command::OnSource(id, SourceAction::Unmask) => (2, id.0, 0),
            Command::OnCore(k, CoreAction::SetCorePriority(p)) => (3, k.0, p),
            Command::OnSource(id, SourceAction::Trigger) => (4, id.0, 0),
            Command::OnCore(k, CoreAction::Claim) => (5, k.0, 0),
            Command::OnSource(id, SourceAction::Redeliver) => (6, id.0, 0),
            Command::OnSource(id, SourceAction::Complete) => (7, id.0, 0),
        };
        Numbers {
            number,
            target,
            level,
        }
    }
}

// Number, target and priority of a command.
pub fn put_command(b: &mut [u8], i: usize, c: Command)
    requires { i + command_size ≤ length b.old }
    ensures { b.new ≡ sets b.old i (command_bytes c) }
{
    let x = Numbers::from(c);
    b[i] = x.number;
    put_word(b, i + 1, x.target);
    put_word(b, i + 3, x.level);
}
