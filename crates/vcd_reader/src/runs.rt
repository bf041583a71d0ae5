// Words that begin at an offset, each byte read once. Each answers for the usual word, and leaves the others to vcd_words.
// Text and offset stand apart, as in advance, which docs/THEOREMS.md names: what is answered is a further offset, and a struct of both that
// is made anew for each would be no plainer.
ghost use Rattle.std.specs.Prelude.{◌+◌, ◌≡◌, length, IfSome};
ghost use Rattle.recording.specs.Words.{is_empty};
ghost use Rattle.vcd_reader.specs.Runs.{word_from, BitsThere, CodeThere, TimeThere, Skips};

use crate::{Bits, Coded, Timed};
use vcd_words::scanning;

// Whether no byte of a word stands at an offset.
pub fn is_end(text: &[u8], at: usize) -> bool
    ensures { result ≡ is_empty (word_from text.now at) }
{
    at >= text.len() || scanning::is_separator(text[at])
}

// The next byte that is no separator, or the end of the text.
pub fn skip(text: &[u8], from: usize) -> usize
    ensures { Skips text.now from result }
{
    for i in from..text.len() {
        if !scanning::is_separator(text[i]) {
            return i;
        }
    }
    from.max(text.len())
}

// The first separator, or the end of the text. One loop with a test for a parameter would be no plainer than these two: five lines each.
pub fn past(text: &[u8], from: usize) -> usize
    ensures { result ≡ from + length (word_from text.now from) }
{
    for i in from..text.len() {
        if scanning::is_separator(text[i]) {
            return i;
        }
    }
    from.max(text.len())
}

// ---- bits

// The word of bits at an offset.
pub fn bits(text: &[u8], from: usize) -> Option<Bits>
    ensures { IfSome result (λ b. BitsThere text.now from b) }
{
    if is_end(text, from) {
        return None;
    }
    let mut number = Some(0);
    for end in from..text.len() {
        let b = text[end];
        if !scanning::is_bit(b) {
            return scanning::is_separator(b).then_some(Bits { end, number });
        }
        number = scanning::with_known_bit(number, b);
    }
    Some(Bits {
        end: text.len(),
        number,
    })
}

// ---- codes

// A code that four bytes spell is above 2^24, and takes no other.
#[inline(never)]
fn long_code(text: &[u8], from: usize) -> Option<Coded>
    ensures { IfSome result (λ c. CodeThere text.now from c) }
{
    if is_end(text, from) {
        return None;
    }
    let mut code = 0u32;
    for end in from..text.len() {
        let b = text[end];
        if !b.is_ascii_graphic() {
            return scanning::is_separator(b).then_some(Coded { end, code });
        }
        code = code.checked_mul(256)? + u32::from(b);
    }
    Some(Coded {
        end: text.len(),
        code,
    })
}

// Most codes have one byte.
pub fn code_at(text: &[u8], from: usize) -> Option<Coded>
    ensures { IfSome result (λ c. CodeThere text.now from c) }
{
    if from >= text.len() || !text[from].is_ascii_graphic() {
        return None;
    }
    if is_end(text, from + 1) {
        return Some(Coded {
            end: from + 1,
            code: u32::from(text[from]),
        });
    }
    long_code(text, from)
}

// ---- times

// The decimal number at an offset, if it is a time: below a tenth of the greatest, any digit more fits. Kept out of its callers, whose
// registers run short, since a time may be long.
#[inline(never)]
pub fn time_at(text: &[u8], from: usize) -> Option<Timed>
    ensures { IfSome result (λ a. TimeThere text.now from a) }
{
    if is_end(text, from) {
        return None;
    }
    let mut time = 0u64;
    for end in from..text.len() {
        let b = text[end];
        if !b.is_ascii_digit() {
            return scanning::is_separator(b).then_some(Timed { end, time });
        }
        if time >= u64::MAX / 10 {
            return None;
        }
        time = 10 * time + u64::from(b - b'0');
    }
    Some(Timed {
        end: text.len(),
        time,
    })
}
