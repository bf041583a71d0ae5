// The end of a stamp: the command that is taken there, and faults 13 and 19.
ghost use Rattle.std.specs.Prelude.{◌≡◌};
ghost use Rattle.recording.specs.Stamps.{is_high, uses_core, uses_priority, target_value, is_readable, strobe_of, end_stamp, end_open_stamp};

use crate::{Misreading, readers};
use recording::{Read, Reader, Strobe, Value};

const MAX_COMMANDS: u16 = 65535;

// The commands that use core and prio, by their numbers.
const SET_SOURCE_PRIORITY: u16 = 0;

const SET_CORE_PRIORITY: u16 = 3;

const CLAIM: u16 = 5;

fn is_high(r: Reader) -> bool
    ensures { result ≡ is_high r }
{
    let level = r.variables.stb.value;
    level.known && level.number == 1
}

// Asked in vcd_writer too, of a byte: neither crate stands on the other, and a third for these two lines would be no plainer.
fn uses_core(c: u16) -> bool
    ensures { result ≡ uses_core c }
{
    matches!(c, SET_CORE_PRIORITY | CLAIM)
}

fn uses_priority(c: u16) -> bool
    ensures { result ≡ uses_priority c }
{
    matches!(c, SET_SOURCE_PRIORITY | SET_CORE_PRIORITY)
}

fn target(r: Reader) -> Value
    ensures { result ≡ target_value r }
{
    if uses_core(r.variables.cmd.value.number) {
        r.variables.core.value
    } else {
        r.variables.arg.value
    }
}

#[tactic(auto, unfolding(recording::specs::Stamps::is_readable))]
pub fn is_readable(r: Reader) -> bool
    ensures { result ≡ is_readable r }
{
    let cmd = r.variables.cmd.value;
    cmd.known && target(r).known && (!uses_priority(cmd.number) || r.variables.prio.value.known)
}

#[tactic(auto, unfolding(recording::specs::Stamps::strobe_of))]
pub fn strobe(r: Reader) -> Strobe
    ensures { result ≡ strobe_of r }
{
    let number = r.variables.cmd.value.number;
    let level = if uses_priority(number) {
        r.variables.prio.value.number
    } else {
        0
    };
    readers::strobe_with(number, target(r).number, level)
}

#[tactic(auto, unfolding(recording::specs::Stamps::end_stamp))]
fn end_stamp(r: Reader, at: u64) -> Read
    ensures { result ≡ end_stamp at r }
{
    if !r.variables.stb.value.known {
        return readers::only(readers::misread(r, Misreading::NotKnown, at));
    }
    let high = is_high(r);
    if !high || r.stamp.up {
        return readers::only(readers::with_up(r, high));
    }
    if !is_readable(r) {
        return readers::only(readers::misread(r, Misreading::NotKnown, at));
    }
    if MAX_COMMANDS <= r.taken {
        return readers::only(readers::misread(r, Misreading::TooMany, at));
    }
    let next = readers::with_taken(readers::with_up(r, true), r.taken + 1);
    readers::read_with(next, Some(strobe(r)))
}

// The end of the stamp, if one is open, shown at an offset.
#[tactic(auto, unfolding(recording::specs::Stamps::end_open_stamp))]
pub fn end_open_stamp(r: Reader, at: u64) -> Read
    ensures { result ≡ end_open_stamp at r }
{
    if r.stamp.opened {
        end_stamp(r, at)
    } else {
        readers::only(r)
    }
}
