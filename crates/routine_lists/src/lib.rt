// The call for hosts on a list of the interrupt routines' calls, with the handovers counted. It is proved to answer and to write what its
// definition in routines/specs/Calls.antt says and nothing else, whatever it is lent. What can't be read or doesn't fit is answered by
// 2^64 - 1, and every buffer stays as it was. It answers a number in place of a `Result`, since C calls it (psic_c).
#![tactic(auto)]

ghost use Rattle.std.specs.Prelude.{◌≡◌, true};
ghost use Rattle.routines.specs.Calls.{call_of, DoesSimulate, fits_simulate, simulate_call};

use layout::{COMMAND_SIZE, NO_COUNT};
use model::{CORES, CoreId, Refusal, SourceId};
use routine_steps::Memory;
use routines::{DirectAction, RoutineCall};

// The call that three numbers name: a command by its own number, entry by 16, exit by 17.
#[tactic(auto, unfolding(routines::specs::Calls::call_of))]
fn call_of(number: u16, at: u16, p: u16) -> Option<RoutineCall>
    ensures { result ≡ call_of number at p }
{
    let direct = |a: DirectAction| Some(RoutineCall::Direct(SourceId(at), a));
    match number {
        0 => direct(DirectAction::SetPriority(p)),
        1 => direct(DirectAction::Mask),
        2 => direct(DirectAction::Unmask),
        4 => direct(DirectAction::Trigger),
        16 => Some(RoutineCall::Enter(CoreId(at))),
        17 => Some(RoutineCall::Exit(CoreId(at))),
        _ => None,
    }
}

// Where the memory fits.
fn simulate_all(
    state: &mut [u8],
    active: &mut [u16],
    holder: &mut [u16],
    list: &[u8],
    answers: &mut [u8],
    table: &mut [u16],
) -> u64
    requires { fits_simulate state.old active.old holder.old list.now answers.old table.old ≡ true }
    ensures { DoesSimulate result state.new active.new holder.new answers.new table.new
        (simulate_call state.old active.old holder.old list.now answers.old
        table.old) }
{
    let mut ranking = routine_steps::begin(state, active, holder);
    // A step asks this too; asked before the loop, it makes one of its own of the calls that an unsound simulation refuses.
    let sound = ranking.is_some();
    let mut memory = Memory {
        state,
        active,
        holder,
    };
    let mut counts = handovers::table_in(table);
    let count = list.len() / COMMAND_SIZE;
    for k in 0..count {
        let i = COMMAND_SIZE * k;
        let at = decoding::word_at(list, i + 1);
        let read = call_of(list[i] as u16, at, decoding::word_at(list, i + 3));
        let Some(c) = read else {
            handovers::put_table(table, counts);
            return k as u64;
        };
        let o = if sound {
            memory.step(&mut ranking, c)
        } else {
            Err(Refusal::Malformed)
        };
        let (number, id, cycles) = routine_steps::numbers_of(o);
        encoding::put_answer(answers, i, number, id, cycles);
        let from = routine_steps::last_holder(o);
        if from.is_some() {
            // Through a local: the borrow checker doesn't cover `counts = handovers::count(..)`, since counts is an array.
            let raised = handovers::count(counts, from, CoreId(at));
            counts = raised;
        }
    }
    handovers::put_table(table, counts);
    count as u64
}

// A list of calls, 5 bytes each; an answer of 5 bytes for each. Handovers are counted on in the table, 32 rows of 32 numbers. A number
// that names no call ends the run: the count says how many were taken. The simulation is tested once.
pub fn psic_simulate(
    state: &mut [u8],
    active: &mut [u16],
    holder: &mut [u16],
    list: &[u8],
    answers: &mut [u8],
    table: &mut [u16],
) -> u64
    ensures { DoesSimulate result state.new active.new holder.new answers.new table.new
        (simulate_call state.old active.old holder.old list.now answers.old
        table.old) }
{
    if list.len() % COMMAND_SIZE != 0
        || answers.len() < list.len()
        || table.len() != CORES * CORES
        || !routine_test::is_simulation(state, active, holder)
    {
        return NO_COUNT;
    }
    simulate_all(state, active, holder, list, answers, table)
}
