// The calls for hosts in C and Rust, as libpsic.a exports them. Each is the function of its name in a library crate, and promises the same
// in the same words; what is proved of the calls is proved there.
#![tactic(auto)]

ghost use Rattle.std.specs.Prelude.{◌≡◌};
ghost use Rattle.model.specs.Records.{claimed_as, core_id};
ghost use Rattle.layout.specs.Bytes.{Does, make_call, execute_call, DoesRun, run_call};
ghost use Rattle.borrowed.specs.Lent.{taken_from, found_in, ranges_in};
ghost use Rattle.recording.specs.Calls.{read_call, DoesRead, replay_call, DoesReplay, write_call, DoesWrite};
ghost use Rattle.routines.specs.Calls.{DoesCall, make_routines_call, routine_call, DoesSimulate, simulate_call};
ghost use Rattle.routines.specs.declared.RoutineCall.TheVariants.{Enter, Exit};
ghost use Rattle.version.specs.Version.{version_of};

use model::{Claimed, Core, Found, Ranged, Source};
use recording::Report;

// The version, as the header's PSIC_VERSION writes it.
#[unsafe(no_mangle)]
pub extern "C" fn psic_version() -> u32
    ensures { result ≡ version_of 4 0 0 }
{
    version::psic_version()
}

// ---- a controller in a host's bytes

// A fresh controller of n sources and m cores, written as bytes. Sizes out of range are refused by 2, and the buffer stays as it was.
#[unsafe(no_mangle)]
pub extern "C" fn psic_make(n: u16, m: u16, state: &mut [u8]) -> u64
    ensures { Does result state.new (make_call n m state.old) }
{
    exports::psic_make(n, m, state)
}

// One command, by its number 0 to 7, on the state that the bytes encode.
#[unsafe(no_mangle)]
pub extern "C" fn psic_execute(state: &mut [u8], number: u16, at: u16, priority: u16) -> u64
    ensures { Does result state.new (execute_call number at priority state.old) }
{
    exports::psic_execute(state, number, at, priority)
}

// A list of commands, 5 bytes each, from the state that the bytes encode; an answer of 5 bytes for each. A command with a number
// above 7 ends the run: the count says how many were taken. The state is tested once.
#[unsafe(no_mangle)]
pub extern "C" fn psic_run(state: &mut [u8], list: &[u8], answers: &mut [u8]) -> u64
    ensures { DoesRun result state.new answers.new
        (run_call state.old list.now answers.old) }
{
    exports::psic_run(state, list, answers)
}

// ---- records that the host lends

// The claim of a core record, which is written back also by a refusal, as it was.
#[unsafe(no_mangle)]
pub extern "C" fn psic_claim_in_place(c: &mut Core) -> Claimed
    ensures { (result ≡ claimed_as (taken_from c.old)) × (c.new ≡ (taken_from c.old).core) }
{
    borrowed::psic_claim_in_place(c)
}

// Where the first highest candidate of a lent list stands.
#[unsafe(no_mangle)]
pub extern "C" fn psic_highest_in(list: &[Source]) -> Found
    ensures { result ≡ found_in list.now }
{
    borrowed::psic_highest_in(list)
}

// How many ranges of the comparator tree over a lent list that search looks into.
#[unsafe(no_mangle)]
pub extern "C" fn psic_ranges_in(list: &[Source]) -> Ranged
    ensures { result ≡ ranges_in list.now }
{
    borrowed::psic_ranges_in(list)
}

// ---- recordings

// The commands of a recording, five bytes each, and the times of the stamps at whose ends they are taken.
#[unsafe(no_mangle)]
pub extern "C" fn psic_read(text: &[u8], commands: &mut [u8], times: &mut [u64]) -> Report
    ensures { DoesRead result commands.new times.new
        (read_call text.now commands.old times.old) }
{
    recording_calls::psic_read(text, commands, times)
}

// The state after the replay of a recording from a fresh controller of n sources and m cores, and its answers, five bytes each. It goes
// on after a refused command. Sizes out of range are refused by 2 before any reading.
#[unsafe(no_mangle)]
pub extern "C" fn psic_replay(
    n: u16,
    m: u16,
    text: &[u8],
    state: &mut [u8],
    answers: &mut [u8],
) -> Report
    ensures { DoesReplay result state.new answers.new
        (replay_call n m text.now state.old answers.old) }
{
    recording_calls::psic_replay(n, m, text, state, answers)
}

// The text of a run, commands of five bytes each, in the front of the lent buffer: 0 and 256 times its length. A list that isn't a run is
// 255. Over 65,535 commands, a used value too large for its variable, or a text longer than the buffer is 15. Then the buffer stays as it
// was.
#[unsafe(no_mangle)]
pub extern "C" fn psic_write(list: &[u8], text: &mut [u8]) -> u64
    ensures { DoesWrite result text.new (write_call list.now text.old) }
{
    vcd_writer::psic_write(list, text)
}

// ---- the interrupt routines

// A fresh simulation of n sources and m cores. Sizes out of range are refused by 2, and the memory stays as it was.
#[unsafe(no_mangle)]
pub extern "C" fn psic_make_routines(
    n: u16,
    m: u16,
    state: &mut [u8],
    active: &mut [u16],
    holder: &mut [u16],
) -> u64
    ensures { DoesCall result state.new active.new holder.new
        (make_routines_call n m state.old active.old holder.old) }
{
    routine_calls::psic_make_routines(n, m, state, active, holder)
}

// Entry of a routine on a core.
#[unsafe(no_mangle)]
pub extern "C" fn psic_enter(
    state: &mut [u8],
    active: &mut [u16],
    holder: &mut [u16],
    core: u16,
) -> u64
    ensures { DoesCall result state.new active.new holder.new
        (routine_call (Enter (core_id core)) state.old active.old holder.old) }
{
    routine_calls::psic_enter(state, active, holder, core)
}

// Exit of the routine that is active on a core.
#[unsafe(no_mangle)]
pub extern "C" fn psic_exit(
    state: &mut [u8],
    active: &mut [u16],
    holder: &mut [u16],
    core: u16,
) -> u64
    ensures { DoesCall result state.new active.new holder.new
        (routine_call (Exit (core_id core)) state.old active.old holder.old) }
{
    routine_calls::psic_exit(state, active, holder, core)
}

// A list of calls, 5 bytes each; an answer of 5 bytes for each. Handovers are counted on in the table, 32 rows of 32 numbers. A number
// that names no call ends the run: the count says how many were taken. The simulation is tested once.
#[unsafe(no_mangle)]
pub extern "C" fn psic_simulate(
    state: &mut [u8],
    active: &mut [u16],
    holder: &mut [u16],
    list: &[u8],
    answers: &mut [u8],
    table: &mut [u16],
) -> u64
    ensures { DoesSimulate result state.new active.new holder.new answers.new table.new
        (simulate_call state.old active.old holder.old list.now answers.old
        table.old) }
{
    routine_lists::psic_simulate(state, active, holder, list, answers, table)
}
