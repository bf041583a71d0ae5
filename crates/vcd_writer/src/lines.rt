// Lines written into a buffer, each up to an offset, and from its end to its front: the lowest digit of a number comes out first. Each
// function answers where its bytes begin.
ghost use Rattle.std.specs.Prelude.{◌^◌, ◌<◌, ◌≤◌, ◌≡◌, [], ◌∷◌, length};
ghost use Rattle.std.proofs.lemmas.List.Edits.{sets};
ghost use Rattle.recording.specs.Declarations.{narrow};
ghost use Rattle.recording.specs.Writing.{numeral_bytes, time_line, definition_text};
ghost use Rattle.vcd_writer.specs.Lines.{Room, Put, vector_of, value_of, value_lines, lines_of};

use crate::values::Numbers;

// The definitions.
pub const DEFINITIONS: &[u8] = b"$timescale 1 ns $end\n$scope module psic $end\n\
      $var wire 1 ! stb $end\n$var wire 3 \" cmd $end\n$var wire 5 # core $end\n$var wire 8 $ arg $end\n$var wire 9 % prio $end\n\
      $upscope $end\n$enddefinitions $end\n";

// A mark and the digits of a number.
fn put_numeral(text: &mut [u8], end: usize, mark: u8, base: u32, x: u32) -> usize
    requires { (2 ≤ base) × (base ≤ 10) × Room (mark ∷ numeral_bytes base x) end text.old }
    ensures { Put text.old end (mark ∷ numeral_bytes base x) result text.new }
{
    let mut at = end - 1;
    let mut rest = x;
    while base <= rest {
        text[at] = b'0' + ((rest % base) as u8);
        rest /= base;
        at -= 1;
    }
    text[at] = b'0' + (rest as u8);
    text[at - 1] = mark;
    at - 1
}

// The last two bytes of a line, and the newline.
fn put_ending(text: &mut [u8], end: usize, first: u8, second: u8) -> usize
    requires { Room (first ∷ second ∷ 10 ∷ []) end text.old }
    ensures { Put text.old end (first ∷ second ∷ 10 ∷ []) result text.new }
{
    let at = end - 3;
    text[at] = first;
    text[at + 1] = second;
    text[at + 2] = b'\n';
    at
}

// A vector: b and binary digits, a space and the code.
fn put_vector(text: &mut [u8], end: usize, code: u8, x: u16) -> usize
    requires { Room (vector_of code x) end text.old }
    ensures { Put text.old end (vector_of code x) result text.new }
{
    let digits = put_ending(text, end, b' ', code);
    put_numeral(text, digits, b'b', 2, x as u32)
}

// A time: # and decimal digits.
fn put_time(text: &mut [u8], end: usize, t: u32) -> usize
    requires { Room (time_line t) end text.old }
    ensures { Put text.old end (time_line t) result text.new }
{
    let digits = end - 1;
    text[digits] = b'\n';
    put_numeral(text, digits, b'#', 10, t)
}

// The values of a command, a vector each.
fn put_values(text: &mut [u8], end: usize, numbers: Numbers) -> usize
    requires { Room (value_lines (value_of numbers)) end text.old }
    ensures { Put text.old end (value_lines (value_of numbers)) result text.new }
{
    let prio = put_vector(text, end, b'%', numbers.prio());
    let arg = put_vector(text, prio, b'$', numbers.arg());
    let core = put_vector(text, arg, b'#', numbers.core());
    put_vector(text, core, b'"', numbers.number as u16)
}

// The lines of a command: up in the stamp of a time, down in the next.
pub fn put_command(text: &mut [u8], end: usize, time: u32, numbers: Numbers) -> usize
    requires { (time < 2 ^ 17) × Room (lines_of time (value_of numbers)) end text.old }
    ensures { Put text.old end (lines_of time (value_of numbers)) result text.new }
{
    let down = put_ending(text, end, b'0', b'!');
    let next = put_time(text, down, time + 1);
    let up = put_ending(text, next, b'1', b'!');
    let values = put_values(text, up, numbers);
    put_time(text, values, time)
}

// The definitions, in the front of the buffer.
pub fn put_definitions(text: &mut [u8])
    requires { length (definition_text narrow) ≤ length text.old }
    ensures { text.new ≡ sets text.old 0 (definition_text narrow) }
{
    text[..DEFINITIONS.len()].copy_from_slice(DEFINITIONS);
}
