// Writes a run of commands as a recording. What is written is said in recording/specs/Writing.antt, and what the call answers in
// recording/specs/Calls.antt. The list is tested and the text measured first, and nothing is written; then the text is written from its
// end to its front, as the digits of a number come out.
#![tactic(auto)]

mod lengths;
mod lines;
mod values;

ghost use Rattle.std.specs.Prelude.{◌*◌, ◌^◌, ◌<◌, ◌≤◌, ◌≡◌, length};
ghost use Rattle.std.proofs.lemmas.List.Edits.{sets};
ghost use Rattle.lists.specs.Walks.{every};
ghost use Rattle.layout.specs.Bytes.{command_size};
ghost use Rattle.recording.specs.Stamps.{max_commands};
ghost use Rattle.recording.specs.Calls.{is_run, write_call, DoesWrite};
ghost use Rattle.vcd_writer.specs.Lines.{fits_at, text_to};

use layout::{COMMAND_SIZE, UNREADABLE};
use values::Numbers;

const NOT_WRITABLE: u64 = 15;

const MAX_COMMANDS: usize = 65535;

// The largest number that names a command.
const LAST_NUMBER: u8 = 7;

// Whether the bytes are whole commands, each of a number that names one.
fn is_run(list: &[u8]) -> bool
    ensures { result ≡ is_run list.now }
{
    list.len() % COMMAND_SIZE == 0
        && (0..list.len() / COMMAND_SIZE).all(|k| list[COMMAND_SIZE * k] <= LAST_NUMBER)
}

// Whether every value that one of the first commands uses fits its variable.
fn all_fit(list: &[u8], count: usize) -> bool
    requires { command_size * count ≤ length list.now }
    ensures { result ≡ every count (fits_at list.now) }
{
    (0..count).all(|k| Numbers::at(list, k).fit())
}

// The length of the text of the first commands.
fn text_length(list: &[u8], count: usize) -> usize
    requires { (command_size * count ≤ length list.now) × (count ≤ max_commands) }
    ensures { (result ≡ length (text_to list.now count)) × (result < 2 ^ 56) }
{
    let mut sum = lines::DEFINITIONS.len();
    for k in 0..count {
        sum += lengths::command_length(k as u32, Numbers::at(list, k));
    }
    sum
}

// The text of the first commands, of that size, from its end to its front.
fn put_text(list: &[u8], count: usize, text: &mut [u8], size: usize)
    requires { (command_size * count ≤ length list.now) × (count ≤ max_commands)
        × (size ≡ length (text_to list.now count)) × (size ≤ length text.old) }
    ensures { text.new ≡ sets text.old 0 (text_to list.now count) }
{
    let mut end = size;
    for k in (0..count).rev() {
        end = lines::put_command(text, end, 2 * (k as u32), Numbers::at(list, k));
    }
    lines::put_definitions(text);
}

// The text of a run, commands of five bytes each, in the front of the lent buffer: 0 and 256 times its length. A list that isn't a run is
// 255. Over 65,535 commands, a used value too large for its variable, or a text longer than the buffer is 15. Then the buffer stays as it
// was.
pub fn psic_write(list: &[u8], text: &mut [u8]) -> u64
    ensures { DoesWrite result text.new (write_call list.now text.old) }
{
    if !is_run(list) {
        return UNREADABLE;
    }
    let count = list.len() / COMMAND_SIZE;
    if count > MAX_COMMANDS || !all_fit(list, count) {
        return NOT_WRITABLE;
    }
    let size = text_length(list, count);
    if text.len() < size {
        return NOT_WRITABLE;
    }
    put_text(list, count, text, size);
    256 * (size as u64)
}
