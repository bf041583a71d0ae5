// The two commands on a core, on a sound state that lies in a host's bytes: decide by the core's record, then store.
#![tactic(auto)]

ghost use Rattle.std.specs.Prelude.{◌≡◌};
ghost use Rattle.layout.specs.Bytes.{state_from};
ghost use Rattle.in_place.specs.Steps.{Ready, Executed};
ghost use Rattle.core_steps.specs.Phases.{soiled_all, Soiled, Emptied, Undelivered, Delivered, Settled};

use arbitration::places;
use in_place::{Outcome, Ranking};
use model::{Accepted, Command, CoreAction, CoreId, Refusal};

// Step 1 of settling, to its end: one filled box a cycle, lowest core first. All are dirty by now, so the mark itself is never stored.
fn retract_all(state: &mut [u8], ranking: &mut Ranking) -> u16
    requires { Soiled state.old ranking.old }
    ensures { Emptied state.old result state.new ranking.new }
{
    let m = in_place::cores_in(state) as usize;
    let mut cycles = 0;
    for k in 0..m {
        let c = decoding::core_at(state, k);
        if c.message.filled {
            in_place::retract(state, ranking, k, c);
            cycles += 1;
        }
    }
    cycles
}

// Step 2, to its end: one delivery a cycle, the highest candidate to the least core, while it is strictly above.
fn deliver_all(state: &mut [u8], ranking: &mut Ranking) -> u16
    requires { Undelivered state.old ranking.old }
    ensures { Delivered state.old result state.new ranking.new }
{
    let n = in_place::sources_in(state) as usize;
    let m = in_place::cores_in(state) as usize;
    for t in 0..m {
        let top = places::greatest(&ranking.ranks[..n]);
        let key = places::lowest(&ranking.keys[..m]);
        if places::priority_of(top) <= places::current_of(key) {
            return t as u16;
        }
        let i = places::source_of(top);
        let k = places::core_of(key);
        let r = decoding::source_at(state, i);
        let c = decoding::core_at(state, k);
        in_place::deliver(state, ranking, i, r, k, c);
    }
    m as u16
}

// Settling after set core priority, which makes every filled box dirty. The cycles are answered.
fn settle(state: &mut [u8], ranking: &mut Ranking) -> u16
    requires { Soiled state.old ranking.old }
    ensures { Settled (soiled_all (state_from state.old)) result state.new ranking.new }
{
    let retracted = retract_all(state, ranking);
    let delivered = deliver_all(state, ranking);
    retracted + delivered
}

// A command on a core: decided by its record, then stored.
pub fn on_core(state: &mut [u8], ranking: &mut Ranking, core: CoreId, a: CoreAction) -> Outcome
    requires { Ready state.old ranking.old }
    ensures { Executed state.old (Command.OnCore core a) result state.new ranking.new }
{
    let m = in_place::cores_in(state);
    if !checks::names_core(m, core) {
        return Err(Refusal::BadCore);
    }
    let n = in_place::sources_in(state);
    let k = core.0 as usize;
    let c = decoding::core_at(state, k);
    checks::core_refusal(n, c, a)?;
    match a {
        CoreAction::SetCorePriority(p) => {
            in_place::put_core(state, ranking, k, records::core_with(p, c.message));
            let cycles = settle(state, ranking);
            Ok(Accepted::after(cycles))
        }
        CoreAction::Claim => {
            in_place::put_core(state, ranking, k, records::claimed_core(c));
            Ok(Accepted {
                id: c.message.source,
                cycles: 0,
            })
        }
    }
}
