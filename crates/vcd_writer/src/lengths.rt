// Lengths of what is written, before it is.
ghost use Rattle.std.specs.Prelude.{suc, ◌*◌, ◌^◌, ◌<◌, ◌≤◌, ◌≡◌, length};
ghost use Rattle.recording.specs.Writing.{digits};
ghost use Rattle.vcd_writer.specs.Lines.{lines_of, value_of};

use crate::values::Numbers;

// How many digits a number has.
fn count_digits(base: u32, x: u32) -> usize
    requires { 2 ≤ base }
    ensures { (result ≡ length (digits base x)) × (result ≤ suc x) }
{
    let mut n = 1;
    let mut rest = x;
    while base <= rest {
        rest /= base;
        n += 1;
    }
    n
}

// The length of the lines of the k-th command. All but the digits are 26 bytes; both times have as many digits.
pub fn command_length(k: u32, numbers: Numbers) -> usize
    requires { k < 2 ^ 16 }
    ensures { (result ≡ length (lines_of (2 * k) (value_of numbers))) × (result < 2 ^ 20) }
{
    let time = count_digits(10, 2 * k);
    let cmd = count_digits(2, numbers.number as u32);
    let core = count_digits(2, numbers.core() as u32);
    let arg = count_digits(2, numbers.arg() as u32);
    let prio = count_digits(2, numbers.prio() as u32);
    26 + 2 * time + cmd + core + arg + prio
}
