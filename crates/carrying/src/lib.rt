// What is carried between two chunks of a recording, read from bytes and written to bytes. The bytes are those of
// recording/specs/Carrying.antt. Calls for the exports, which test with is_carried first.
#![tactic(auto)]

ghost use Rattle.std.specs.Prelude.{◌+◌, ◌≤◌, ◌≡◌, not, length};
ghost use Rattle.std.proofs.lemmas.List.Edits.{sets};
ghost use Rattle.layout.specs.Bytes.{is_flag_at};
ghost use Rattle.recording.specs.Words.{all, separator};
ghost use Rattle.recording.specs.Carrying.{low_bytes, number_at, place_of, value_bytes, value_from, variable_bytes, variable_from};
ghost use Rattle.recording.specs.Carrying.{variables_bytes, variables_from, pending_bytes, pending_from, stamp_bytes, stamp_from, fault_bytes};
ghost use Rattle.recording.specs.Carrying.{fault_from, reader_bytes, reader_from, carried_size, reader_flags, is_carried, variable_size};
ghost use Rattle.carrying.specs.Sizes.{value_size, variables_size, pending_size, stamp_size, fault_size};

use decoding::word_at;
use encoding::{flag_byte, put_word};
use layout::WORD_SIZE;
use recording::{Fault, Pending, Place, Reader, Stamp, Value, Variable, Variables};
use vcd_words::{readers, scanning};

// The bytes of a number of 64 bits, of a value and of a variable, and where the value lies in a variable and in what is under way.
const NUMBER_SIZE: usize = size_of::<u64>();

const VALUE_SIZE: usize = 1 + WORD_SIZE;

const VARIABLE_VALUE: usize = size_of::<u32>() + 1;

const VARIABLE_SIZE: usize = VARIABLE_VALUE + VALUE_SIZE;

const PENDING_VALUE: usize = 1 + size_of::<u32>() + 1;

// Where the parts of a reader begin, behind its place: what is under way, the variables, the stamp, the commands taken, the fault.
const PENDING_AT: usize = 1;

const VARIABLES_AT: usize = PENDING_AT + PENDING_VALUE + VALUE_SIZE;

const STAMP_AT: usize = VARIABLES_AT + 5 * VARIABLE_SIZE;

const COMMANDS_AT: usize = STAMP_AT + 2 + NUMBER_SIZE;

const FAULT_AT: usize = COMMANDS_AT + WORD_SIZE;

const LAST_PLACE: u8 = Place::BlockCode as u8;

// Where the mark of the end stands, the bytes taken, the offset of the word under way, its length, and its bytes.
pub const ENDED_AT: usize = FAULT_AT + 1 + NUMBER_SIZE;

pub const TAKEN_AT: usize = ENDED_AT + 1;

pub const FROM_AT: usize = TAKEN_AT + NUMBER_SIZE;

pub const LENGTH_AT: usize = FROM_AT + NUMBER_SIZE;

pub const BYTES_AT: usize = LENGTH_AT + WORD_SIZE;

// The most bytes of a word that are carried, and all that is.
pub const MOST_KEPT: usize = 256;

pub const CARRIED_SIZE: usize = BYTES_AT + MOST_KEPT;

// ---- numbers

// One function for both widths would need a trait of its own over from_le_bytes and to_le_bytes, which std has for each type alone: no
// plainer than a line for each. All take the bytes and an offset, as the definitions of recording/specs/Carrying.antt do.

// The number of four bytes at i, as codes are.
fn code_at(b: &[u8], i: usize) -> u32
    requires { i + 4 ≤ length b.now }
    ensures { result ≡ number_at 4 b.now i }
{
    u32::from_le_bytes(b[i..i + 4].try_into().unwrap())
}

pub fn number_at(b: &[u8], i: usize) -> u64
    requires { i + 8 ≤ length b.now }
    ensures { result ≡ number_at 8 b.now i }
{
    u64::from_le_bytes(b[i..i + 8].try_into().unwrap())
}

fn put_code(b: &mut [u8], i: usize, x: u32)
    requires { i + 4 ≤ length b.old }
    ensures { b.new ≡ sets b.old i (low_bytes 4 x) }
{
    b[i..i + 4].copy_from_slice(&x.to_le_bytes());
}

pub fn put_number(b: &mut [u8], i: usize, x: u64)
    requires { i + 8 ≤ length b.old }
    ensures { b.new ≡ sets b.old i (low_bytes 8 x) }
{
    b[i..i + 8].copy_from_slice(&x.to_le_bytes());
}

// ---- places

// A number above the last names the first; is_carried refuses it.
// No TryFrom: each number is answered, and the enum lies in recording, where alone a trait of std could get an impl for it.
fn place_of(x: u8) -> Place
    ensures { result ≡ place_of x }
{
    match x {
        1 => Place::SkipDefinition,
        2 => Place::Wire,
        3 => Place::Width,
        4 => Place::Code,
        5 => Place::Name,
        6 => Place::VarEnd,
        7 => Place::DefinitionsEnd,
        8 => Place::Body,
        9 => Place::SkipBody,
        10 => Place::BodyCode,
        11 => Place::Block,
        12 => Place::BlockCode,
        _ => Place::Definition,
    }
}

// ---- a reader, read

fn value_from(b: &[u8], i: usize) -> Value
    requires { i + value_size ≤ length b.now }
    ensures { result ≡ value_from b.now i }
{
    readers::value_with(b[i] == 1, word_at(b, i + 1))
}

fn variable_from(b: &[u8], i: usize) -> Variable
    requires { i + variable_size ≤ length b.now }
    ensures { result ≡ variable_from b.now i }
{
    readers::variable_with(code_at(b, i), b[i + 4], value_from(b, i + VARIABLE_VALUE))
}

fn variables_from(b: &[u8], i: usize) -> Variables
    requires { i + variables_size ≤ length b.now }
    ensures { result ≡ variables_from b.now i }
{
    readers::variables_with(
        variable_from(b, i),
        variable_from(b, i + VARIABLE_SIZE),
        variable_from(b, i + 2 * VARIABLE_SIZE),
        variable_from(b, i + 3 * VARIABLE_SIZE),
        variable_from(b, i + 4 * VARIABLE_SIZE),
    )
}

fn pending_from(b: &[u8], i: usize) -> Pending
    requires { i + pending_size ≤ length b.now }
    ensures { result ≡ pending_from b.now i }
{
    readers::pending_with(
        b[i],
        code_at(b, i + 1),
        readers::vector_with(b[i + 5], value_from(b, i + PENDING_VALUE)),
    )
}

fn stamp_from(b: &[u8], i: usize) -> Stamp
    requires { i + stamp_size ≤ length b.now }
    ensures { result ≡ stamp_from b.now i }
{
    readers::stamp_with(b[i] == 1, number_at(b, i + 2), b[i + 1] == 1)
}

fn fault_from(b: &[u8], i: usize) -> Fault
    requires { i + fault_size ≤ length b.now }
    ensures { result ≡ fault_from b.now i }
{
    readers::fault_with(b[i], number_at(b, i + 1))
}

pub fn reader_from(b: &[u8]) -> Reader
    requires { length b.now ≡ carried_size }
    ensures { result ≡ reader_from b.now }
{
    readers::reader_with(
        place_of(b[0]),
        pending_from(b, PENDING_AT),
        variables_from(b, VARIABLES_AT),
        stamp_from(b, STAMP_AT),
        word_at(b, COMMANDS_AT),
        fault_from(b, FAULT_AT),
    )
}

// ---- a reader, written

fn put_value(b: &mut [u8], i: usize, v: Value)
    requires { i + value_size ≤ length b.old }
    ensures { b.new ≡ sets b.old i (value_bytes v) }
{
    b[i] = flag_byte(v.known);
    put_word(b, i + 1, v.number);
}

fn put_variable(b: &mut [u8], i: usize, v: Variable)
    requires { i + variable_size ≤ length b.old }
    ensures { b.new ≡ sets b.old i (variable_bytes v) }
{
    put_code(b, i, v.code);
    b[i + 4] = v.width;
    put_value(b, i + VARIABLE_VALUE, v.value);
}

fn put_variables(b: &mut [u8], i: usize, vs: Variables)
    requires { i + variables_size ≤ length b.old }
    ensures { b.new ≡ sets b.old i (variables_bytes vs) }
{
    put_variable(b, i, vs.stb);
    put_variable(b, i + VARIABLE_SIZE, vs.cmd);
    put_variable(b, i + 2 * VARIABLE_SIZE, vs.core);
    put_variable(b, i + 3 * VARIABLE_SIZE, vs.arg);
    put_variable(b, i + 4 * VARIABLE_SIZE, vs.prio);
}

fn put_pending(b: &mut [u8], i: usize, p: Pending)
    requires { i + pending_size ≤ length b.old }
    ensures { b.new ≡ sets b.old i (pending_bytes p) }
{
    b[i] = p.width;
    put_code(b, i + 1, p.code);
    b[i + 5] = p.vector.length;
    put_value(b, i + PENDING_VALUE, p.vector.value);
}

fn put_stamp(b: &mut [u8], i: usize, s: Stamp)
    requires { i + stamp_size ≤ length b.old }
    ensures { b.new ≡ sets b.old i (stamp_bytes s) }
{
    b[i] = flag_byte(s.opened);
    b[i + 1] = flag_byte(s.up);
    put_number(b, i + 2, s.time);
}

fn put_fault(b: &mut [u8], i: usize, f: Fault)
    requires { i + fault_size ≤ length b.old }
    ensures { b.new ≡ sets b.old i (fault_bytes f) }
{
    b[i] = f.number;
    put_number(b, i + 1, f.offset);
}

pub fn put_reader(b: &mut [u8], r: Reader)
    requires { length b.old ≡ carried_size }
    ensures { b.new ≡ sets b.old 0 (reader_bytes r) }
{
    b[0] = r.place as u8;
    put_pending(b, PENDING_AT, r.pending);
    put_variables(b, VARIABLES_AT, r.variables);
    put_stamp(b, STAMP_AT, r.stamp);
    put_word(b, COMMANDS_AT, r.taken);
    put_fault(b, FAULT_AT, r.fault);
}

// ---- the test

fn is_flag(b: &[u8], i: usize) -> bool
    requires { i + 1 ≤ length b.now }
    ensures { result ≡ is_flag_at b.now i }
{
    b[i] <= 1
}

// The flags of the vector under way and of the five variables, then those of the stamp.
fn reader_flags(b: &[u8]) -> bool
    requires { length b.now ≡ carried_size }
    ensures { result ≡ reader_flags b.now }
{
    is_flag(b, PENDING_AT + PENDING_VALUE)
        && is_flag(b, VARIABLES_AT + VARIABLE_VALUE)
        && is_flag(b, VARIABLES_AT + VARIABLE_SIZE + VARIABLE_VALUE)
        && is_flag(b, VARIABLES_AT + 2 * VARIABLE_SIZE + VARIABLE_VALUE)
        && is_flag(b, VARIABLES_AT + 3 * VARIABLE_SIZE + VARIABLE_VALUE)
        && is_flag(b, VARIABLES_AT + 4 * VARIABLE_SIZE + VARIABLE_VALUE)
        && is_flag(b, STAMP_AT)
        && is_flag(b, STAMP_AT + 1)
}

// Whether no byte of a word is a separator.
fn no_separator(word: &[u8]) -> bool
    ensures { result ≡ all (λ x. not (separator x)) word.now }
{
    word.iter().all(|x| !scanning::is_separator(*x))
}

// Whether the bytes encode what is carried.
#[tactic(auto, unfolding(recording::specs::Carrying::is_carried))]
pub fn is_carried(b: &[u8]) -> bool
    ensures { result ≡ is_carried b.now }
{
    if b.len() != CARRIED_SIZE {
        return false;
    }
    let count = word_at(b, LENGTH_AT) as usize;
    b[0] <= LAST_PLACE
        && reader_flags(b)
        && is_flag(b, ENDED_AT)
        && count <= MOST_KEPT
        && no_separator(&b[BYTES_AT..BYTES_AT + count])
}
