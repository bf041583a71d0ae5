// The calls for hosts on recordings: the commands of a text with their times, and the replay of a text. Each is proved to write what its
// definition in recording/specs/Calls.antt says and nothing else, on any bytes whatever. Buffers that don't fit are answered by 255, and
// stay as they were. They answer a number in place of a `Result`, since C calls them (psic_c). A text is read once, from one command to
// the next, and nothing of it is kept.
#![tactic(auto)]

ghost use Rattle.std.specs.Prelude.{◌≤◌, min, ◌≡◌, true, cond, length};
ghost use Rattle.layout.specs.Bytes.{one_command};
ghost use Rattle.recording.specs.Stamps.{max_commands, commands_of};
ghost use Rattle.recording.specs.Reading.{is_good};
ghost use Rattle.recording.specs.Calls.{report_with, no_room, read_call, fits_read, DoesRead, replay_call, fits_replay, DoesReplay};
ghost use Rattle.recording_calls.specs.Remaining.{Continues};

use layout::{COMMAND_SIZE, STATE_SIZE, UNREADABLE};
use model::Command;
use recording::{Reader, Report, Strobe};
use vcd_reader::{Advanced, advancing};
use vcd_words::{readers, words};

// As many commands as a recording's report can count: `max_commands`.
const MAX_COMMANDS: usize = 65535;

// ---- what a call answers

fn report_with(number: u8, count: u16, offset: u64) -> Report
    ensures { result ≡ report_with number count offset }
{
    Report {
        number,
        count,
        offset,
    }
}

fn no_room() -> Report
    ensures { result ≡ no_room }
{
    report_with(UNREADABLE as u8, 0, 0)
}

// After the end of a text of this length, with as many commands.
fn report_of(r: Reader, count: u16, length: u64) -> Report
    ensures { result ≡ report_with r.fault.number count (cond (is_good r) length r.fault.offset) }
{
    let offset = if r.fault.number == 0 {
        length
    } else {
        r.fault.offset
    };
    report_with(r.fault.number, count, offset)
}

// The commands that a text of this length is to have room for.
fn room(length: usize) -> usize
    ensures { result ≡ min max_commands length }
{
    length.min(MAX_COMMANDS)
}

// ---- one command after another
//
// Both calls read on from one command to the next in a loop over variables: the reader, and where the text is read next, between two
// words; None: its end is read, too. In a struct of its own the reader would be copied once more for each command.

// The command of a strobe, none if there is none.
fn taken(s: Option<Strobe>) -> Option<Command>
    ensures { one_command result ≡ commands_of s }
{
    let s = s?;
    decoding::command(s.number, s.target, s.level)
}

// Reads on to the next command, and from the last word's end to the end of the text, which ends a stamp as well.
#[inline(always)]
fn next(text: &[u8], at: usize, r: Reader) -> Advanced
    requires { at ≤ length text.now }
    ensures { Continues text.now at r result }
{
    if at < text.len() {
        return advancing::advance(text, at, r);
    }
    let last = words::finish(r, text.len() as u64);
    Advanced {
        reader: last.reader,
        end: at,
        strobe: last.strobe,
        time: r.stamp.time,
    }
}

// ---- reading

// Where the buffers have room.
fn read_all(text: &[u8], commands: &mut [u8], times: &mut [u64]) -> Report
    requires { fits_read text.now commands.old times.old ≡ true }
    ensures { DoesRead result commands.new times.new
        (read_call text.now commands.old times.old) }
{
    let mut reader = readers::start();
    let mut next_at = Some(0);
    let mut count = 0;
    while let Some(at) = next_at {
        let a = next(text, at, reader);
        reader = a.reader;
        next_at = (at < text.len()).then_some(a.end);
        if let Some(c) = taken(a.strobe) {
            encoding::put_command(commands, COMMAND_SIZE * count, c);
            times[count] = a.time;
            count += 1;
        }
    }
    report_of(reader, count as u16, text.len() as u64)
}

// The commands of a recording, five bytes each, and the times of the stamps at whose ends they are taken.
pub fn psic_read(text: &[u8], commands: &mut [u8], times: &mut [u64]) -> Report
    ensures { DoesRead result commands.new times.new
        (read_call text.now commands.old times.old) }
{
    let most = room(text.len());
    if commands.len() < COMMAND_SIZE * most || times.len() < most {
        return no_room();
    }
    read_all(text, commands, times)
}

// ---- replaying

// Where the buffers fit.
fn replay_all(n: u16, m: u16, text: &[u8], state: &mut [u8], answers: &mut [u8]) -> Report
    requires { fits_replay text.now state.old answers.old ≡ true }
    ensures { DoesReplay result state.new answers.new
        (replay_call n m text.now state.old answers.old) }
{
    let made = commands::make(n, m);
    // A number in place of a `Result`: the statements over any behaviour (model/specs/Statements.antt) speak of `Answer`'s number.
    if made.number != 0 {
        return report_with(made.number, 0, 0);
    }
    let fresh = made.state;
    encoding::put_state(state, fresh);
    let mut ranking = steps::begin(state);
    let mut reader = readers::start();
    let mut next_at = Some(0);
    let mut count = 0;
    while let Some(at) = next_at {
        let a = next(text, at, reader);
        reader = a.reader;
        next_at = (at < text.len()).then_some(a.end);
        if let Some(c) = taken(a.strobe) {
            let o = steps::step(state, &mut ranking, c);
            let (number, id, cycles) = in_place::numbers_of(o);
            encoding::put_answer(answers, COMMAND_SIZE * count, number, id, cycles);
            count += 1;
        }
    }
    report_of(reader, count as u16, text.len() as u64)
}

// The state after the replay of a recording from a fresh controller of n sources and m cores, and its answers, five bytes each. It goes
// on after a refused command. Sizes out of range are refused by 2 before any reading.
pub fn psic_replay(n: u16, m: u16, text: &[u8], state: &mut [u8], answers: &mut [u8]) -> Report
    ensures { DoesReplay result state.new answers.new
        (replay_call n m text.now state.old answers.old) }
{
    if state.len() != STATE_SIZE || answers.len() < COMMAND_SIZE * room(text.len()) {
        return no_room();
    }
    replay_all(n, m, text, state, answers)
}
