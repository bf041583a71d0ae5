// Commands one after another on a state in a host's bytes. The state is tested once: a command keeps a sound state sound, and refuses an
// unsound one by 1, which leaves it as it was.
#![tactic(auto)]

ghost use Rattle.std.specs.Prelude.{◌≡◌, true};
ghost use Rattle.model.specs.Commands.{execute};
ghost use Rattle.layout.specs.Bytes.{is_state, state_from};
ghost use Rattle.steps.specs.Going.{Going, Went};

use in_place::{Outcome, Ranking};
use model::{Command, Refusal};

// The numbers of the state's cores and sources, if it is sound.
pub fn begin(state: &[u8]) -> Option<Ranking>
    requires { is_state state.now ≡ true }
    ensures { Going result state.now }
{
    if !state_test::well_formed(state) {
        return None;
    }
    let mut ranking = Ranking::new();
    in_place::number_all(state, &mut ranking);
    Some(ranking)
}

// One command, on a state of which `begin` has answered.
pub fn step(state: &mut [u8], ranking: &mut Option<Ranking>, c: Command) -> Outcome
    requires { Going ranking.old state.old }
    ensures { Went (execute (state_from state.old) c) ranking.old result
        state.new ranking.new }
{
    let Some(ranking) = ranking else {
        return Err(Refusal::Malformed);
    };
    match c {
        Command::OnSource(id, a) => source_steps::on_source(state, ranking, id, a),
        Command::OnCore(core, a) => core_steps::on_core(state, ranking, core, a),
    }
}
