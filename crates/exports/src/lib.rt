// The calls for hosts in C and Rust. Each is proved to write what its definition in layout/specs/Bytes.antt says and nothing else,
// on any bytes whatever. Unreadable bytes and buffers that do not fit are answered by 255, or by 2^64 - 1 where the answer is a count,
// and leave every buffer as it was. They answer numbers in place of a `Result`, since C calls them
// (psic_c), and take sizes, lists and answers one by one, as C passes them.
#![tactic(auto)]

ghost use Rattle.layout.specs.Bytes.{Does, make_call, execute_call, DoesRun, run_call};

use layout::{COMMAND_SIZE, NO_COUNT, STATE_SIZE, UNREADABLE};
use model::Refusal;

// A fresh controller of n sources and m cores, written as bytes. Sizes out of range are refused by 2, and the buffer stays as it was.
pub fn psic_make(n: u16, m: u16, state: &mut [u8]) -> u64
    ensures { Does result state.new (make_call n m state.old) }
{
    if state.len() != STATE_SIZE {
        return UNREADABLE;
    }
    let made = commands::make(n, m);
    let answer = encoding::packed(made.number, made.id, made.cycles);
    // A number in place of a `Result`: the statements over any behaviour (model/specs/Statements.antt) speak of `Answer`'s number.
    if made.number != 0 {
        return answer;
    }
    let fresh = made.state;
    encoding::put_state(state, fresh);
    answer
}

// One command, by its number 0 to 7, on the state that the bytes encode.
pub fn psic_execute(state: &mut [u8], number: u16, at: u16, priority: u16) -> u64
    ensures { Does result state.new (execute_call number at priority state.old) }
{
    if !decoding::is_state(state) {
        return UNREADABLE;
    }
    let Some(c) = decoding::command(number, at, priority) else {
        return UNREADABLE;
    };
    let mut ranking = steps::begin(state);
    let o = steps::step(state, &mut ranking, c);
    let (number, id, cycles) = in_place::numbers_of(o);
    encoding::packed(number, id, cycles)
}

// A list of commands, 5 bytes each, from the state that the bytes encode; an answer of 5 bytes for each. A command with a number
// above 7 ends the run: the count says how many were taken. The state is tested once.
pub fn psic_run(state: &mut [u8], list: &[u8], answers: &mut [u8]) -> u64
    ensures { DoesRun result state.new answers.new
        (run_call state.old list.now answers.old) }
{
    if list.len() % COMMAND_SIZE != 0 || answers.len() < list.len() || !decoding::is_state(state) {
        return NO_COUNT;
    }
    let mut ranking = steps::begin(state);
    // A step asks this too; asked before the loop, it makes one of its own of the commands that an unsound state refuses.
    let sound = ranking.is_some();
    let count = list.len() / COMMAND_SIZE;
    for k in 0..count {
        let i = COMMAND_SIZE * k;
        let read = decoding::command(
            list[i] as u16,
            decoding::word_at(list, i + 1),
            decoding::word_at(list, i + 3),
        );
        let Some(c) = read else {
            return k as u64;
        };
        let o = if sound {
            steps::step(state, &mut ranking, c)
        } else {
            Err(Refusal::Malformed)
        };
        let (number, id, cycles) = in_place::numbers_of(o);
        encoding::put_answer(answers, i, number, id, cycles);
    }
    count as u64
}
