// The test of a simulation in a host's memory: the controller's state in its bytes, beside it the active ids and the last holders. It
// takes three slices and no struct of them, as `routine_steps::Memory`, since that would ask a caller who only tests for `&mut`s.
#![tactic(auto)]

ghost use Rattle.std.specs.Prelude.{◌<◌, ◌≡◌, length};
ghost use Rattle.layout.specs.Bytes.{state_size};
ghost use Rattle.model.specs.Records.{max_sources, max_cores};
ghost use Rattle.routines.specs.Routines.{sound_routines};
ghost use Rattle.routines.specs.Calls.{routines_in, is_simulation};
ghost use Rattle.routine_test.specs.Standing.{Sizes, core_stands, source_stands};

use model::{CORES, SOURCES, SourceId};

// Whether the memory lent encodes a simulation: the lengths are right, and the bytes encode a state.
pub fn is_simulation(state: &[u8], active: &[u16], holder: &[u16]) -> bool
    ensures { result ≡ is_simulation state.now active.now holder.now }
{
    active.len() == CORES && holder.len() == SOURCES && decoding::is_state(state)
}

// Whether core k is idle at 0, or runs a claimed request at its priority that it held last.
fn core_stands(state: &[u8], active: &[u16], holder: &[u16], n: u16, m: usize, k: usize) -> bool
    requires { Sizes state.now active.now holder.now n m × (k < max_cores) }
    ensures { result ≡ core_stands (routines_in state.now active.now holder.now) k }
{
    let c = decoding::core_at(state, k);
    // A word of the host's memory has 0 for none.
    let id = active[k];
    if id == 0 {
        return c.configured == 0;
    }
    if m <= k || n < id {
        return false;
    }
    let i = usize::from(id) - 1;
    let r = decoding::source_at(state, i);
    let last = usize::from(holder[i]);
    c.configured == r.priority
        && last == k + 1
        && source_steps::is_claimed(state, m, SourceId(id), r)
}

// Whether the last holder of source i + 1 is below m and, if the request is claimed, runs it.
fn source_stands(state: &[u8], active: &[u16], holder: &[u16], n: u16, m: usize, i: usize) -> bool
    requires { Sizes state.now active.now holder.now n m × (i < max_sources) }
    ensures { result ≡ source_stands (routines_in state.now active.now holder.now) i }
{
    // The last holder's number plus one: a word of the host's memory has 0 for none.
    let h = usize::from(holder[i]);
    if m < h {
        return false;
    }
    if usize::from(n) <= i {
        return true;
    }
    let r = decoding::source_at(state, i);
    let claimed = source_steps::is_claimed(state, m, SourceId(i as u16 + 1), r);
    !claimed || (h != 0 && usize::from(active[h - 1]) == i + 1)
}

// Whether a simulation is sound: document 02, 4/14, "1, in any call of the simulation". That a request runs on one core only needs no row
// of marks, since each core that runs it is its last holder.
pub fn sound(state: &[u8], active: &[u16], holder: &[u16]) -> bool
    requires { (length state.now ≡ state_size) × (length active.now ≡ max_cores) × (length holder.now ≡ max_sources) }
    ensures { result ≡ sound_routines (routines_in state.now active.now holder.now) }
{
    if !state_test::well_formed(state) {
        return false;
    }
    let n = decoding::word_at(state, 0);
    let m = usize::from(decoding::word_at(state, 2));
    for k in 0..CORES {
        if !core_stands(state, active, holder, n, m, k) {
            return false;
        }
    }
    for i in 0..SOURCES {
        if !source_stands(state, active, holder, n, m, i) {
            return false;
        }
    }
    true
}
