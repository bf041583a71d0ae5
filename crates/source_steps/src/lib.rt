// Commands on a source, on the bytes of a sound state: its record is read, made anew, and written back where it lies, and its request is
// offered to the least core.
#![tactic(auto)]

ghost use Rattle.std.specs.Prelude.{◌≤◌, ◌≡◌, not, ◌&&◌, length};
ghost use Rattle.model.specs.Records.{max_cores};
ghost use Rattle.model.specs.Requests.{boxed as boxed_in};
ghost use Rattle.model.specs.Statements.{delivered_once};
ghost use Rattle.layout.specs.Bytes.{state_size, state_from};
ghost use Rattle.in_place.specs.Steps.{Ready, Leaves, Executed};
ghost use Rattle.source_steps.specs.Offers.{Offered};

use arbitration::places;
use in_place::{Outcome, Ranking};
use model::{Accepted, Command, Refusal, Source, SourceAction, SourceId};

// The request of source i + 1, whose record is r, goes to the least of m cores, if it is a candidate and strictly above it. A delivery is
// one cycle. No core is looked for where there is no candidate.
fn offer(state: &mut [u8], ranking: &mut Ranking, m: usize, i: usize, r: Source) -> Outcome
    requires { Offered (state_from state.old) state.old ranking.old m i r }
    ensures { Leaves (delivered_once (state_from state.old) i) result
        state.new ranking.new }
{
    let rank = ranking.ranks[i];
    if rank == 0 {
        return Ok(Accepted::after(0));
    }
    let key = places::lowest(&ranking.keys[..m]);
    if places::priority_of(rank) <= places::current_of(key) {
        return Ok(Accepted::after(0));
    }
    let k = places::core_of(key);
    let c = decoding::core_at(state, k);
    in_place::deliver(state, ranking, i, r, k, c);
    Ok(Accepted::after(1))
}

// Whether a filled box of the first m cores names the source. A `for` kept out of line: with `any`, or inlined, two branches a core are
// left, and of filled and empty boxes in any order they are often guessed wrong.
#[inline(never)]
fn boxed(state: &[u8], m: usize, id: SourceId) -> bool
    requires { (length state.now ≡ state_size) × (m ≤ max_cores) }
    ensures { result ≡ boxed_in (state_from state.now).cores m id.0 }
{
    for k in 0..m {
        let held = decoding::core_at(state, k).message;
        if held.filled && held.source == id {
            return true;
        }
    }
    false
}

// Whether the request of a source, whose record is r, is claimed: pending, delivered, and in no box.
pub fn is_claimed(state: &[u8], m: usize, id: SourceId, r: Source) -> bool
    requires { (length state.now ≡ state_size) × (m ≤ max_cores) }
    ensures { result ≡ r.pending && r.delivered && not (boxed_in (state_from state.now).cores m id.0) }
{
    r.pending && r.delivered && !boxed(state, m, id)
}

// A command on a source: decided by its record, then stored. A trigger refused because one is pending is counted in that record.
pub fn on_source(state: &mut [u8], ranking: &mut Ranking, id: SourceId, a: SourceAction) -> Outcome
    requires { Ready state.old ranking.old }
    ensures { Executed state.old (Command.OnSource id a) result
        state.new ranking.new }
{
    let n = in_place::sources_in(state);
    if !checks::names_source(n, id) {
        return Err(Refusal::BadSource);
    }
    let i = id.0 as usize - 1;
    let m = in_place::cores_in(state) as usize;
    let r = decoding::source_at(state, i);
    let claimed = is_claimed(state, m, id, r);
    if let Err(refusal) = checks::source_refusal(n, r, claimed, a) {
        if refusal == Refusal::AlreadyPending {
            in_place::put_source(state, ranking, i, records::dropped_one(r));
        }
        return Err(refusal);
    }
    let next = records::source_after(a, r);
    in_place::put_source(state, ranking, i, next);
    offer(state, ranking, m, i, next)
}
