// Calls of the interrupt routines one after another, on a simulation in a host's memory. It is tested once: a call keeps a sound
// simulation sound, and refuses an unsound one by 1, which leaves it as it was.
#![tactic(auto)]

ghost use Rattle.std.specs.Prelude.{◌<◌, ◌≡◌, true, length, is_some};
ghost use Rattle.model.specs.Records.{max_sources, max_cores};
ghost use Rattle.layout.specs.Bytes.{is_state, state_from};
ghost use Rattle.in_place.specs.Steps.{cycles_in, Says, Ready, Leaves};
ghost use Rattle.routines.specs.Routines.{holder_number, hand_back, holder_after};
ghost use Rattle.routine_steps.specs.Simulated.{outcome_in, from_in, simulation_in, Same, Standing, Did, Running, Went};

use in_place::{Outcome, Ranking};
use model::{Accepted, CoreAction, CoreId, Refusal, SourceAction, SourceId};
use routines::{DirectAction, RoutineCall};

// What an accepted call answers besides the simulation, and the core that last held the request that an entry takes, if one did.
#[derive(Clone, Copy)]
pub struct AcceptedCall {
    pub accepted: Accepted,
    pub from: Option<CoreId>,
}

pub type Stepped = Result<AcceptedCall, Refusal>;

// The same as document 01's number, 0 for success, with the claimed id, 0 for none, and the cycles.
pub fn numbers_of(o: Stepped) -> (u8, SourceId, u16)
    ensures { Says (outcome_in o) result.0 result.1.0 result.2 }
{
    in_place::numbers_of(o.map(|call| call.accepted))
}

// The core that last held the request that an entry has taken.
pub fn last_holder(o: Stepped) -> Option<CoreId>
    ensures { holder_number result ≡ from_in o }
{
    match o {
        Ok(call) => call.from,
        Err(_) => None,
    }
}

// Nothing is claimed, and no request is taken.
fn after(cycles: u16) -> AcceptedCall
    ensures { (result.accepted.id.0 ≡ 0) × (result.accepted.cycles ≡ cycles) × (result.from ≡ None) }
{
    AcceptedCall {
        accepted: Accepted::after(cycles),
        from: None,
    }
}

// The core that a word of the last holders names, if it names one.
fn holder_from(word: u16) -> Option<CoreId>
    ensures { holder_number result ≡ word }
{
    word.checked_sub(1).map(CoreId)
}

// The last holders after an accepted command on source i + 1: a trigger makes a request that nobody has held.
fn hold_after(holder: &mut [u16], a: DirectAction, i: usize)
    requires { i < length holder.old }
    ensures { holder.new ≡ holder_after a i holder.old }
{
    if let DirectAction::Trigger = a {
        holder[i] = 0;
    }
}

// Listing 1, `if (prev != 0) cpu.redeliver(prev)`. Document 01 has id 0 for none, and so have the words of the active ids in memory.
fn hand_back(state: &mut [u8], ranking: &mut Ranking, interrupted: u16) -> Outcome
    requires { Ready state.old ranking.old }
    ensures { Leaves (hand_back (state_from state.old) interrupted) result
        state.new ranking.new }
{
    if interrupted == 0 {
        return Ok(Accepted::after(0));
    }
    source_steps::on_source(
        state,
        ranking,
        SourceId(interrupted),
        SourceAction::Redeliver,
    )
}

// The cycles of a command that the routines give beside others: of its refusal they make nothing.
fn cycles_of(o: Outcome) -> u16
    ensures { result ≡ cycles_in o }
{
    o.map_or(0, |accepted| accepted.cycles)
}

// The numbers of the cores and sources of a simulation, if it is sound. It takes three slices, as the test does.
pub fn begin(state: &[u8], active: &[u16], holder: &[u16]) -> Option<Ranking>
    requires { (is_state state.now ≡ true) × (length active.now ≡ max_cores) × (length holder.now ≡ max_sources) }
    ensures { Running result state.now active.now holder.now }
{
    if !routine_test::sound(state, active, holder) {
        return None;
    }
    let mut ranking = Ranking::new();
    in_place::number_all(state, &mut ranking);
    Some(ranking)
}

// A simulation in a host's memory: the controller's state in its bytes, the active id of each core and the last holder of each request.
#[derive(Drop)]
pub struct Memory<'a> {
    pub state: &'a mut [u8],
    pub active: &'a mut [u16],
    pub holder: &'a mut [u16],
}

impl Memory<'_> {
    // A command on a source. An accepted trigger makes a request that nobody has held.
    fn command(&mut self, ranking: &mut Ranking, id: SourceId, a: DirectAction) -> Stepped
        requires { Standing self.old.state.now self.old.active.now self.old.holder.now ranking.old }
        ensures same { Same self.old self.new }
        ensures did { Did (simulation_in self.old) (RoutineCall.Direct id a) result
            self.new.state.now self.new.active.now self.new.holder.now ranking.new }
    {
        let accepted = source_steps::on_source(self.state, ranking, id, a.into())?;
        hold_after(self.holder, a, id.0 as usize - 1);
        Ok(after(accepted.cycles))
    }

    // Listing 1, entry: claim, redeliver what was interrupted, and make the claimed request active. It is refused as its claim is. As exit
    // it stands in the step, where a refusal costs no call.
    #[inline(always)]
    fn enter(&mut self, ranking: &mut Ranking, core: CoreId) -> Stepped
        requires { Standing self.old.state.now self.old.active.now self.old.holder.now ranking.old }
        ensures same { Same self.old self.new }
        ensures did { Did (simulation_in self.old) (RoutineCall.Enter core) result
            self.new.state.now self.new.active.now self.new.holder.now ranking.new }
    {
        let claimed = core_steps::on_core(self.state, ranking, core, CoreAction::Claim)?;
        let k = core.0 as usize;
        let interrupted = self.active[k];
        let back = hand_back(self.state, ranking, interrupted);
        let id = claimed.id;
        let i = id.0 as usize - 1;
        let from = holder_from(self.holder[i]);
        self.active[k] = id.0;
        self.holder[i] = core.0 + 1;
        Ok(AcceptedCall {
            accepted: Accepted {
                id,
                cycles: claimed.cycles + cycles_of(back),
            },
            from,
        })
    }

    // Listing 1, exit: complete the active request, and set the core to 0.
    #[inline(always)]
    fn exit(&mut self, ranking: &mut Ranking, core: CoreId) -> Stepped
        requires { Standing self.old.state.now self.old.active.now self.old.holder.now ranking.old }
        ensures same { Same self.old self.new }
        ensures did { Did (simulation_in self.old) (RoutineCall.Exit core) result
            self.new.state.now self.new.active.now self.new.holder.now ranking.new }
    {
        // Lent apart: of a field that is lent as a `&`, the generated proof keeps only the length.
        let state = &mut *self.state;
        let active = &mut *self.active;
        if !checks::names_core(in_place::cores_in(state), core) {
            return Err(Refusal::BadCore);
        }
        let k = core.0 as usize;
        let id = active[k];
        // A word of the host's memory has 0 for none.
        if id == 0 {
            return Err(Refusal::NotClaimed);
        }
        let completed = source_steps::on_source(
            state,
            ranking,
            SourceId(id),
            SourceAction::Complete,
        );
        let lowered = core_steps::on_core(state, ranking, core, CoreAction::SetCorePriority(0));
        active[k] = 0;
        Ok(after(cycles_of(completed) + cycles_of(lowered)))
    }

    // One call, on a simulation of which `begin` has answered.
    #[inline(always)]
    pub fn step(&mut self, ranking: &mut Option<Ranking>, c: RoutineCall) -> Stepped
        requires { Running ranking.old self.old.state.now self.old.active.now self.old.holder.now }
        ensures same { Same self.old self.new }
        ensures went { Went (simulation_in self.old) c result
            self.new.state.now self.new.active.now self.new.holder.now ranking.new }
        ensures kept { is_some ranking.new ≡ is_some ranking.old }
    {
        let Some(ranking) = ranking else {
            return Err(Refusal::Malformed);
        };
        match c {
            RoutineCall::Direct(id, a) => self.command(ranking, id, a),
            RoutineCall::Enter(core) => self.enter(ranking, core),
            RoutineCall::Exit(core) => self.exit(ranking, core),
        }
    }
}
