// Words that are skipped up to the next $end, and the words that begin or end a block.
ghost use Rattle.std.specs.Prelude.{◌≡◌, IfSome, MatchResult};
ghost use Rattle.vcd_reader.specs.Skipping.{ToEnd, NoEnd, PassedBy, Passes, Turns};
ghost use Rattle.recording.specs.declared.Place.TheVariants.{Definition, Body};

use crate::{Turned, keywords, runs};

// The end of the first $end from an offset on, or else of the text.
pub fn to_end(text: &[u8], from: usize) -> Result<usize, usize>
    ensures { MatchResult result (λ end. ToEnd text.now from end) (λ end. NoEnd text.now from end) }
{
    let mut i = runs::skip(text, from);
    // a `while`: i goes from word to word
    while i < text.len() {
        if let Some(end) = keywords::spelled(text, i, b"$end") {
            return Ok(end);
        }
        i = runs::skip(text, runs::past(text, i));
    }
    Err(i)
}

// The end of a comment, which is that of its $end.
#[inline(never)]
fn comment(text: &[u8], at: usize) -> Option<usize>
    ensures { IfSome result (λ end. PassedBy Body text.now at end) }
{
    let first = keywords::spelled(text, at, b"$comment")?;
    to_end(text, first).ok()
}

// In a block its end; elsewhere a comment, or the first word of a block.
pub fn turn(text: &[u8], at: usize, block: bool) -> Option<Turned>
    ensures { IfSome result (λ k. Turns text.now at block k) }
{
    if block {
        let end = keywords::spelled(text, at, b"$end")?;
        return Some(Turned { end, block: false });
    }
    if let Some(end) = comment(text, at) {
        return Some(Turned { end, block: false });
    }
    let end = keywords::dump_at(text, at)?;
    Some(Turned { end, block: true })
}

// The end of a definition that is skipped, which is that of its $end. Beside `comment`, and not one function: the first word's test and
// the place in the contract differ, and what is the same is one line.
fn definition(text: &[u8], at: usize) -> Option<usize>
    ensures { IfSome result (λ end. PassedBy Definition text.now at end) }
{
    let first = keywords::skipped_at(text, at)?;
    to_end(text, first).ok()
}

// Definitions that are skipped, as far as they go.
pub fn definitions(text: &[u8], from: usize) -> usize
    ensures { Passes Definition text.now from result }
{
    let mut i = runs::skip(text, from);
    while let Some(end) = definition(text, i) {
        i = runs::skip(text, end);
    }
    i
}
