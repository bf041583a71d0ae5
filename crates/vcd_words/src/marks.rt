// What a word is, by what is kept of it.
ghost use Rattle.std.specs.Prelude.{ℕ, min, ◌≡◌, true, cond, Some, None};
ghost use Rattle.std.specs.Int.{w64, from_be_bytes};
ghost use mathlib.Core.List.{List, tail};
ghost use Rattle.lists.specs.Numbers.{between};
ghost use Rattle.recording.specs.Words.{all, bytes_of, is_text};
ghost use Rattle.recording.specs.Values.{code_of, is_decimal, decimal, vector_of};
ghost use Rattle.recording.specs.Reading.{is_vector, starts_time, is_time, time_of};
ghost use Rattle.vcd_words.specs.Partial.{Keeps, Ends, text_of, spelling_with, spelling_of};

use crate::{Keyword, Number, Partial, Spelling, readers, scanning};
use recording::Vector;

fn spelling_with(length: u16, high: [u8; 8], low: [u8; 8]) -> Spelling
    ensures { result ≡ spelling_with length (from_be_bytes w64 high) (from_be_bytes w64 low) }
{
    Spelling {
        length,
        high: u64::from_be_bytes(high),
        low: u64::from_be_bytes(low),
    }
}

// A keyword's length, and the numbers that its bytes spell.
fn spelling(k: Keyword) -> Spelling
    ensures { result ≡ spelling_of (bytes_of (text_of k)) }
{
    match k {
        Keyword::Date => spelling_with(5, [0; 8], *b"\0\0\0$date"),
        Keyword::Version => spelling_with(8, [0; 8], *b"$version"),
        Keyword::Comment => spelling_with(8, [0; 8], *b"$comment"),
        Keyword::Timescale => spelling_with(10, *b"\0\0\0\0\0\0$t", *b"imescale"),
        Keyword::Scope => spelling_with(6, [0; 8], *b"\0\0$scope"),
        Keyword::Upscope => spelling_with(8, [0; 8], *b"$upscope"),
        Keyword::Var => spelling_with(4, [0; 8], *b"\0\0\0\0$var"),
        Keyword::EndDefinitions => spelling_with(15, *b"\0$enddef", *b"initions"),
        Keyword::End => spelling_with(4, [0; 8], *b"\0\0\0\0$end"),
        Keyword::DumpVars => spelling_with(9, *b"\0\0\0\0\0\0\0$", *b"dumpvars"),
        Keyword::DumpAll => spelling_with(8, [0; 8], *b"$dumpall"),
        Keyword::DumpOn => spelling_with(7, [0; 8], *b"\0$dumpon"),
        Keyword::DumpOff => spelling_with(8, [0; 8], *b"$dumpoff"),
        Keyword::Wire => spelling_with(4, [0; 8], *b"\0\0\0\0wire"),
        Keyword::Stb => spelling_with(3, [0; 8], *b"\0\0\0\0\0stb"),
        Keyword::Cmd => spelling_with(3, [0; 8], *b"\0\0\0\0\0cmd"),
        Keyword::Core => spelling_with(4, [0; 8], *b"\0\0\0\0core"),
        Keyword::Arg => spelling_with(3, [0; 8], *b"\0\0\0\0\0arg"),
        Keyword::Prio => spelling_with(4, [0; 8], *b"\0\0\0\0prio"),
    }
}

// Whether the word is this keyword.
pub fn says(p: Partial, k: Keyword) -> bool
    ensures { (w : List ℕ) → Keeps p w → result ≡ is_text (text_of k) w }
{
    let Partial {
        length,
        high,
        low,
        ..
    } = p;
    Spelling { length, high, low } == spelling(k)
}

// ---- codes

fn are_printable(bytes: &[u8]) -> bool
    ensures { result ≡ all (between 33 126) bytes.now }
{
    bytes.iter().all(|b| b.is_ascii_graphic())
}

// The code that the lowest bytes of a number spell, 0 if they are none, as code_of in recording/specs/Values.antt has it.
pub fn code_of(length: u16, low: u64) -> u32
    ensures { (u : List ℕ) → Ends length low u → result ≡ code_of u }
{
    let [.., a, b, c, d] = low.to_be_bytes();
    match length {
        1 if are_printable(&[d]) => u32::from(d),
        2 if are_printable(&[c, d]) => u32::from_be_bytes([0, 0, c, d]),
        3 if are_printable(&[b, c, d]) => u32::from_be_bytes([0, b, c, d]),
        4 if are_printable(&[a, b, c, d]) => u32::from_be_bytes([a, b, c, d]),
        _ => 0,
    }
}

// ---- numbers

// # begins the word.
#[tactic(auto, using(crate::proofs::Telling::starts))]
pub fn starts_time(p: Partial) -> bool
    ensures { (w : List ℕ) → Keeps p w → result ≡ starts_time w }
{
    p.first == b'#'
}

// The time of a word that begins with #, if it is one.
pub fn time(p: Partial) -> Option<u64>
    ensures { (w : List ℕ) → Keeps p w → starts_time w ≡ true → result ≡ cond (is_time w) (Some (time_of w)) None }
{
    match p.number {
        Some(Number::Decimal(time)) if 2 <= p.length => time,
        _ => None,
    }
}

// The decimal number, held at 255, if the word is one.
pub fn width(p: Partial) -> Option<u8>
    ensures { (w : List ℕ) → Keeps p w → result ≡ cond (is_decimal w) (Some (min 255 (decimal w))) None }
{
    match p.number {
        Some(Number::Decimal(n)) if scanning::is_digit(p.first) => {
            Some(n.unwrap_or(u64::MAX).min(255) as u8)
        }
        _ => None,
    }
}

// The vector, if the word is one.
pub fn vector(p: Partial) -> Option<Vector>
    ensures { (w : List ℕ) → Keeps p w → result ≡ cond (is_vector w) (Some (vector_of (tail w))) None }
{
    match p.number {
        Some(Number::Binary(n)) if 2 <= p.length => {
            let length = (p.length - 1).min(255) as u8;
            Some(readers::vector_with(length, readers::kept_value(n)))
        }
        _ => None,
    }
}
