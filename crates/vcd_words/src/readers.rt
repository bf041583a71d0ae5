// The reader's records made. Every literal of one in code stands here, as in recording/specs/Records.antt.
ghost use Rattle.std.specs.Prelude.{◌≡◌, true};
ghost use Rattle.recording.specs.Values.{value as value_with};
ghost use Rattle.vcd_words.specs.Partial.{kept_value, vector_with, number_of};
ghost use Rattle.recording.specs.Records.{start as start_of, variable_of, at as at_place, with_pending, with_width, with_code, with_vector};
ghost use Rattle.recording.specs.Records.{with_variable, with_value, declaring as declaring_of, with_stamp, with_time, with_up, with_taken, refused as refused_of};
ghost use Rattle.recording.specs.Records.{fault_with, strobe_with, read_with, only as only_of};
ghost use Rattle.recording.specs.Records.{variable_with, variables_with, pending_with, stamp_with, reader_with};

use crate::Misreading;
use recording::{
    Fault, Pending, Place, Read, Reader, Signal, Stamp, Strobe, Value, Variable, Variables, Vector,
};

pub fn value_with(known: bool, number: u16) -> Value
    ensures { result ≡ value_with known number }
{
    Value { known, number }
}

// The value of a number, or of none.
pub fn kept_value(number: Option<u16>) -> Value
    ensures { result ≡ kept_value number }
{
    match number {
        Some(number) => value_with(true, number),
        None => value_with(false, 0),
    }
}

pub fn vector_with(length: u8, v: Value) -> Vector
    ensures { result ≡ vector_with length v }
{
    Vector { length, value: v }
}

// A variable that isn't declared.
fn undeclared(known: bool) -> Variable
    ensures { result ≡ variable_with 0 0 (value_with known 0) }
{
    variable_with(0, 0, value_with(known, 0))
}

// None is declared; stb is 0, and the others are x.
fn none_declared() -> Variables
    ensures { result ≡ start_of.variables }
{
    let x = undeclared(false);
    variables_with(undeclared(true), x, x, x, x)
}

// Before the first word.
pub fn start() -> Reader
    ensures { result ≡ start_of }
{
    Reader {
        place: Place::Definition,
        pending: pending_with(0, 0, vector_with(0, value_with(false, 0))),
        variables: none_declared(),
        stamp: stamp_with(false, 0, false),
        taken: 0,
        fault: fault_with(0, 0),
    }
}

pub fn at(r: Reader, place: Place) -> Reader
    ensures { result ≡ at_place place r }
{
    Reader { place, ..r }
}

fn with_pending(r: Reader, pending: Pending) -> Reader
    ensures { result ≡ with_pending pending r }
{
    Reader { pending, ..r }
}

pub fn with_width(r: Reader, width: u8) -> Reader
    ensures { result ≡ with_width width r }
{
    with_pending(r, Pending { width, ..r.pending })
}

pub fn with_code(r: Reader, code: u32) -> Reader
    ensures { result ≡ with_code code r }
{
    with_pending(r, Pending { code, ..r.pending })
}

pub fn with_vector(r: Reader, vector: Vector) -> Reader
    ensures { result ≡ with_vector vector r }
{
    with_pending(
        r,
        Pending {
            vector,
            ..r.pending
        },
    )
}

pub fn variable(vs: Variables, s: Signal) -> Variable
    ensures { result ≡ variable_of vs s }
{
    match s {
        Signal::Stb => vs.stb,
        Signal::Cmd => vs.cmd,
        Signal::Core => vs.core,
        Signal::Arg => vs.arg,
        Signal::Prio => vs.prio,
    }
}

fn with_variable(r: Reader, s: Signal, v: Variable) -> Reader
    ensures { result ≡ with_variable s v r }
{
    let vs = r.variables;
    let variables = match s {
        Signal::Stb => Variables { stb: v, ..vs },
        Signal::Cmd => Variables { cmd: v, ..vs },
        Signal::Core => Variables { core: v, ..vs },
        Signal::Arg => Variables { arg: v, ..vs },
        Signal::Prio => Variables { prio: v, ..vs },
    };
    Reader { variables, ..r }
}

pub fn with_value(r: Reader, s: Signal, value: Value) -> Reader
    ensures { result ≡ with_value s value r }
{
    let v = variable(r.variables, s);
    with_variable(r, s, Variable { value, ..v })
}

// The width and the code that were read become those of a variable.
pub fn declaring(r: Reader, s: Signal) -> Reader
    ensures { result ≡ declaring_of s r }
{
    let Pending { width, code, .. } = r.pending;
    let v = variable(r.variables, s);
    with_variable(r, s, Variable { code, width, ..v })
}

fn with_stamp(r: Reader, stamp: Stamp) -> Reader
    ensures { result ≡ with_stamp stamp r }
{
    Reader { stamp, ..r }
}

pub fn with_time(r: Reader, time: u64) -> Reader
    ensures { result ≡ with_time time r }
{
    let opened = true;
    with_stamp(
        r,
        Stamp {
            opened,
            time,
            ..r.stamp
        },
    )
}

pub fn with_up(r: Reader, up: bool) -> Reader
    ensures { result ≡ with_up up r }
{
    with_stamp(r, Stamp { up, ..r.stamp })
}

pub fn with_taken(r: Reader, taken: u16) -> Reader
    ensures { result ≡ with_taken taken r }
{
    Reader { taken, ..r }
}

pub fn refused(r: Reader, number: u8, offset: u64) -> Reader
    ensures { result ≡ refused_of number offset r }
{
    // A whole copy, then the fault: copied field by field, as ..r does, a recording's reading misses its bar of speed.
    let mut next = r;
    next.fault = fault_with(number, offset);
    next
}

pub(crate) fn misread(r: Reader, why: Misreading, offset: u64) -> Reader
    ensures { result ≡ refused_of (number_of why) offset r }
{
    refused(r, why as u8, offset)
}

pub fn strobe_with(number: u16, target: u16, level: u16) -> Strobe
    ensures { result ≡ strobe_with number target level }
{
    Strobe {
        number,
        target,
        level,
    }
}

pub fn read_with(r: Reader, s: Option<Strobe>) -> Read
    ensures { result ≡ read_with r s }
{
    Read {
        reader: r,
        strobe: s,
    }
}

// No command is taken.
pub fn only(r: Reader) -> Read
    ensures { result ≡ only_of r }
{
    Read {
        reader: r,
        strobe: None,
    }
}

pub fn fault_with(number: u8, offset: u64) -> Fault
    ensures { result ≡ fault_with number offset }
{
    Fault { number, offset }
}

pub fn variable_with(code: u32, width: u8, v: Value) -> Variable
    ensures { result ≡ variable_with code width v }
{
    Variable {
        code,
        width,
        value: v,
    }
}

pub fn variables_with(
    stb: Variable,
    cmd: Variable,
    core: Variable,
    arg: Variable,
    prio: Variable,
) -> Variables
    ensures { result ≡ variables_with stb cmd core arg prio }
{
    Variables {
        stb,
        cmd,
        core,
        arg,
        prio,
    }
}

pub fn pending_with(width: u8, code: u32, v: Vector) -> Pending
    ensures { result ≡ pending_with width code v }
{
    Pending {
        width,
        code,
        vector: v,
    }
}

pub fn stamp_with(opened: bool, time: u64, up: bool) -> Stamp
    ensures { result ≡ stamp_with opened time up }
{
    Stamp { opened, time, up }
}

pub fn reader_with(
    place: Place,
    pending: Pending,
    variables: Variables,
    stamp: Stamp,
    taken: u16,
    fault: Fault,
) -> Reader
    ensures { result ≡ reader_with place pending variables stamp taken fault }
{
    Reader {
        place,
        pending,
        variables,
        stamp,
        taken,
        fault,
    }
}
