// The calls for hosts on a simulation of the interrupt routines, in C's memory: the bytes of the controller's state, and beside them the
// active ids and the last holders as numbers. Each is proved to answer and to write what its definition in routines/specs/Calls.antt
// says and nothing else, whatever it is lent. What can't be read is answered by 255, and every buffer stays as it was. They answer
// numbers in place of a `Result`, and take three slices in place of a `Memory`, since C calls them (psic_c).
#![tactic(auto)]

ghost use Rattle.std.specs.Prelude.{◌≡◌};
ghost use Rattle.model.specs.Records.{core_id};
ghost use Rattle.routines.specs.Calls.{DoesCall, make_routines_call, routine_call};
ghost use Rattle.routines.specs.declared.RoutineCall.TheVariants.{Enter, Exit};

use layout::{STATE_SIZE, UNREADABLE};
use model::{CORES, CoreId, SOURCES};
use routine_steps::Memory;
use routines::RoutineCall;

// A fresh simulation of n sources and m cores. Sizes out of range are refused by 2, and the memory stays as it was.
pub fn psic_make_routines(
    n: u16,
    m: u16,
    state: &mut [u8],
    active: &mut [u16],
    holder: &mut [u16],
) -> u64
    ensures { DoesCall result state.new active.new holder.new
        (make_routines_call n m state.old active.old holder.old) }
{
    if state.len() != STATE_SIZE || active.len() != CORES || holder.len() != SOURCES {
        return UNREADABLE;
    }
    let made = commands::make(n, m);
    // A number in place of a `Result`: the statements over any behaviour (model/specs/Statements.antt) speak of `Answer`'s number.
    if made.number != 0 {
        return made.number as u64;
    }
    let fresh = made.state;
    encoding::put_state(state, fresh);
    active.fill(0);
    holder.fill(0);
    0
}

// One call on a simulation.
fn called(state: &mut [u8], active: &mut [u16], holder: &mut [u16], c: RoutineCall) -> u64
    ensures { DoesCall result state.new active.new holder.new
        (routine_call c state.old active.old holder.old) }
{
    if !routine_test::is_simulation(state, active, holder) {
        return UNREADABLE;
    }
    let mut ranking = routine_steps::begin(state, active, holder);
    let mut memory = Memory {
        state,
        active,
        holder,
    };
    let o = memory.step(&mut ranking, c);
    let (number, id, cycles) = routine_steps::numbers_of(o);
    encoding::packed(number, id, cycles)
}

// Entry of a routine on a core.
pub fn psic_enter(state: &mut [u8], active: &mut [u16], holder: &mut [u16], core: u16) -> u64
    ensures { DoesCall result state.new active.new holder.new
        (routine_call (Enter (core_id core)) state.old active.old holder.old) }
{
    called(state, active, holder, RoutineCall::Enter(CoreId(core)))
}

// Exit of the routine that is active on a core.
pub fn psic_exit(state: &mut [u8], active: &mut [u16], holder: &mut [u16], core: u16) -> u64
    ensures { DoesCall result state.new active.new holder.new
        (routine_call (Exit (core_id core)) state.old active.old holder.old) }
{
    called(state, active, holder, RoutineCall::Exit(CoreId(core)))
}
