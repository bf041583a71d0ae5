// A text read on from an offset, up to the next command.
ghost use Rattle.std.specs.Prelude.{◌<◌, ◌≡◌, true, length};
ghost use Rattle.recording.specs.declared.Place.TheVariants.{Definition};
ghost use Rattle.vcd_reader.specs.Advances.{advanced_with, Advances};
ghost use Rattle.vcd_reader.specs.Skipping.{SkipsTo};
ghost use Rattle.vcd_reader.specs.Changes.{MayChange, after_command, Takes};

use crate::{Advanced, changes, runs, skipping};
use recording::{Place, Reader, Stamp};
use vcd_words::{scanning, stamps, words};

// No command is given up to an offset.
fn no_command(reader: Reader, end: usize) -> Advanced
    ensures { result ≡ advanced_with reader end None 0 }
{
    Advanced {
        reader,
        end,
        strobe: None,
        time: 0,
    }
}

// A separator, or any word.
fn any_word(text: &[u8], i: usize, r: Reader) -> Advanced
    requires { i < length text.now }
    ensures { Advances text.now i r result }
{
    if scanning::is_separator(text[i]) {
        return no_command(r, i + 1);
    }
    let s = scanning::scan(text, i, scanning::nothing());
    let a = words::word(r, i as u64, s.partial);
    Advanced {
        reader: a.reader,
        end: s.end,
        strobe: a.strobe,
        time: r.stamp.time,
    }
}

// ---- the word that gives a command

// Whether a time gives a command and opens a stamp, with no fault.
fn takes(r: Reader, time: u64) -> bool
    ensures { result ≡ true → Takes r time }
{
    let stb = r.variables.stb.value;
    r.stamp.opened
        && stb.known
        && stb.number == 1
        && !r.stamp.up
        && r.stamp.time < time
        && r.taken < u16::MAX
        && stamps::is_readable(r)
}

// Changed in a copy: with `..r` it is copied field by field, and the reading of a text that is mostly strobes takes a fifth more time.
fn taken_at(r: Reader, time: u64) -> Reader
    requires { r.taken < 65535 }
    ensures { result ≡ after_command r time }
{
    let mut next = r;
    next.stamp = Stamp {
        opened: true,
        time,
        up: true,
    };
    next.taken += 1;
    next
}

// Changes and times, then the word that stops them.
fn after_changes(text: &[u8], from: usize, r: Reader) -> Advanced
    requires { (from < length text.now) × MayChange r }
    ensures { Advances text.now from r result }
{
    let p = changes::quiet(text, from, r);
    let i = p.end;
    if i >= text.len() {
        return no_command(p.reader, i);
    }
    if !changes::is_block(p.reader.place)
        && text[i] == b'#'
        && let Some(t) = runs::time_at(text, i + 1)
        && takes(p.reader, t.time)
    {
        return Advanced {
            reader: taken_at(p.reader, t.time),
            end: t.end,
            strobe: Some(stamps::strobe(p.reader)),
            time: p.reader.stamp.time,
        };
    }
    any_word(text, i, p.reader)
}

// ---- what is skipped

// Words up to $end, in a place where they are skipped.
fn after_skipped(text: &[u8], from: usize, r: Reader, next: Place) -> Advanced
    requires { (r.fault.number ≡ 0) × SkipsTo r.place next }
    ensures { Advances text.now from r result }
{
    match skipping::to_end(text, from) {
        Ok(end) => no_command(Reader { place: next, ..r }, end),
        Err(end) => no_command(r, end),
    }
}

// Definitions that are skipped, then the word that stops them.
fn after_definitions(text: &[u8], from: usize, r: Reader) -> Advanced
    requires { (r.place ≡ Definition) × (r.fault.number ≡ 0) }
    ensures { Advances text.now from r result }
{
    let i = skipping::definitions(text, from);
    if i < text.len() {
        any_word(text, i, r)
    } else {
        no_command(r, i)
    }
}

// ---- all of it

// The words from an offset on, up to one that gives a command, or one that is read by itself. A reader with a fault passes the rest.
#[inline(always)]
pub fn advance(text: &[u8], from: usize, r: Reader) -> Advanced
    ensures { Advances text.now from r result }
{
    if from >= text.len() {
        return no_command(r, from);
    }
    if r.fault.number != 0 {
        return no_command(r, text.len());
    }
    match r.place {
        Place::Body | Place::Block => after_changes(text, from, r),
        Place::SkipBody => after_skipped(text, from, r, Place::Body),
        Place::Definition => after_definitions(text, from, r),
        Place::SkipDefinition => after_skipped(text, from, r, Place::Definition),
        _ => any_word(text, from, r),
    }
}
