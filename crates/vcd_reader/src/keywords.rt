// Words that are told by their spelling.
ghost use Rattle.std.specs.Prelude.{◌<◌, ◌≡◌, true, ltb, IfSome};
ghost use Rattle.recording.specs.Words.{all};
ghost use Rattle.recording.specs.Reading.{is_skipped};
ghost use Rattle.vcd_reader.specs.Skipping.{Spelled, Told, opens_block};

use crate::runs;

// Where the word at an offset ends, if it has these bytes, which are no separators.
pub fn spelled(text: &[u8], at: usize, letters: &[u8]) -> Option<usize>
    requires { all (ltb 32) letters.now ≡ true }
    ensures { Spelled text.now at letters.now result }
{
    let mut end = at;
    for letter in letters {
        if end >= text.len() || text[end] != *letter {
            return None;
        }
        end += 1;
    }
    runs::is_end(text, end).then_some(end)
}

// Where the first word of a block ends.
#[inline(never)]
pub fn dump_at(text: &[u8], at: usize) -> Option<usize>
    ensures { IfSome result (λ end. Told opens_block text.now at end) }
{
    spelled(text, at, b"$dumpvars")
        .or_else(|| spelled(text, at, b"$dumpall"))
        .or_else(|| spelled(text, at, b"$dumpon"))
        .or_else(|| spelled(text, at, b"$dumpoff"))
}

// Where the first word of a definition ends that is skipped.
pub fn skipped_at(text: &[u8], at: usize) -> Option<usize>
    ensures { IfSome result (λ end. Told is_skipped text.now at end) }
{
    spelled(text, at, b"$comment")
        .or_else(|| spelled(text, at, b"$date"))
        .or_else(|| spelled(text, at, b"$version"))
        .or_else(|| spelled(text, at, b"$timescale"))
        .or_else(|| spelled(text, at, b"$scope"))
        .or_else(|| spelled(text, at, b"$upscope"))
}
