// Changes, times that give no command, comments, and the ends of blocks, in a place where a change may stand.
ghost use Rattle.std.specs.Prelude.{◌≡◌, true, false, cond, leb, None, IfSome};
ghost use Rattle.recording.specs.Records.{variable_with};
ghost use Rattle.vcd_reader.specs.Skipping.{change_place, in_block};
ghost use Rattle.vcd_reader.specs.Changes.{CodedVector, Places, QuietTime, MayChange, Quiet, QuietWord};

use crate::{Given, Passed, Timed, runs, skipping};
use recording::{Place, Reader, Stamp, Variable, Variables, Vector};
use vcd_words::{readers, scanning, words};

// ---- vectors

// After b or B, from an offset on: bits, and a code.
fn vector_at(text: &[u8], from: usize) -> Option<Given>
    ensures { IfSome result (λ g. CodedVector text.now from g) }
{
    let bits = runs::bits(text, from)?;
    let length = u8::try_from(bits.end - from).ok()?;
    let c = runs::code_at(text, runs::skip(text, bits.end))?;
    Some(Given {
        end: runs::skip(text, c.end),
        code: c.code,
        vector: readers::vector_with(length, readers::kept_value(bits.number)),
    })
}

// The variable takes the vector's value, if the vector isn't longer.
fn takes_value(x: &mut Variable, v: Vector) -> bool
    ensures fits { result ≡ leb v.length x.old.width }
    ensures value { x.new ≡ cond result (variable_with x.old.code x.old.width v.value) x.old }
{
    let fits = v.length <= x.width;
    if fits {
        x.value = v.value;
    }
    fits
}

// The vector becomes the value of the variable with this code, if there is one and the vector isn't longer. Code 0 is tested first: of an
// arm for it the proof has no name to speak by.
#[inline(never)]
fn placed(vs: &mut Variables, code: u32, v: Vector) -> bool
    ensures taken { result ≡ true → Places vs.old code v vs.new }
    ensures kept { result ≡ false → vs.new ≡ vs.old }
{
    if code == 0 {
        return false;
    }
    match code {
        c if c == vs.cmd.code => takes_value(&mut vs.cmd, v),
        c if c == vs.core.code => takes_value(&mut vs.core, v),
        c if c == vs.arg.code => takes_value(&mut vs.arg, v),
        c if c == vs.prio.code => takes_value(&mut vs.prio, v),
        _ => false,
    }
}

// ---- times

pub fn is_block(place: Place) -> bool
    ensures { result ≡ in_block place }
{
    matches!(place, Place::Block)
}

// A time, after #, at the end of an open stamp that gives no command: stb is 0 or 1, and doesn't rise.
fn quiet_time(text: &[u8], from: usize, r: &Reader) -> Option<Timed>
    ensures { IfSome result (λ a. QuietTime text.now from r.now a) }
{
    let stb = r.variables.stb.value;
    let rises = stb.number == 1 && !r.stamp.up;
    if is_block(r.place) || !r.stamp.opened || !stb.known || rises {
        return None;
    }
    let t = runs::time_at(text, from)?;
    (t.time > r.stamp.time).then_some(t)
}

// ---- all of them

// The place after a word that begins or ends a block.
fn place_of(block: bool) -> Place
    ensures { result ≡ change_place block }
{
    if block { Place::Block } else { Place::Body }
}

// A whole change, a time that gives no command, a comment, or a word that begins or ends a block: where the next word begins.
fn pass(text: &[u8], i: usize, r: &mut Reader) -> Option<usize>
    requires { MayChange r.old }
    ensures passed { IfSome result (λ j. QuietWord text.now i r.old j r.new) }
    ensures kept { result ≡ None → r.new ≡ r.old }
{
    let b = *text.get(i)?;
    if scanning::is_binary(b) {
        let g = vector_at(text, i + 1)?;
        if !placed(&mut r.variables, g.code, g.vector) {
            return None;
        }
        r.pending.vector = g.vector;
        Some(g.end)
    } else if scanning::is_bit(b) {
        let c = runs::code_at(text, i + 1)?;
        if r.variables.stb.code != c.code {
            return None;
        }
        r.variables.stb.value = words::bit_value(b);
        Some(runs::skip(text, c.end))
    } else if b == b'#' {
        let t = quiet_time(text, i + 1, r)?;
        let up = r.variables.stb.value.number == 1;
        r.stamp = Stamp {
            opened: true,
            time: t.time,
            up,
        };
        Some(runs::skip(text, t.end))
    } else {
        let k = skipping::turn(text, i, is_block(r.place))?;
        r.place = place_of(k.block);
        Some(runs::skip(text, k.end))
    }
}

// As far as they go. What stops them is left to what reads any word.
pub fn quiet(text: &[u8], from: usize, r: Reader) -> Passed
    requires { MayChange r }
    ensures { Quiet text.now from r result.end result.reader }
{
    let mut reader = r;
    let mut end = runs::skip(text, from);
    while let Some(next) = pass(text, end, &mut reader) {
        end = next;
    }
    Passed { end, reader }
}
