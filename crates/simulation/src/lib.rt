// The interrupt routines by value: making a simulation, and one call for all of its calls, on any values whatever. Each contract is one
// equation with its definition in routines/specs/Routines.antt.
#![tactic(auto)]

ghost use Rattle.std.specs.Prelude.{◌≡◌};
ghost use Rattle.routines.specs.Routines.{make_routines, call_routine};

use layout::STATE_SIZE;
use model::{CORES, SOURCES, SourceId};
use routine_steps::Memory;
use routines::{RoutineAnswer, RoutineCall, Routines};

// A fresh simulation, or 2 with the fresh one of sizes (1, 1).
pub fn make(n: u16, m: u16) -> RoutineAnswer
    ensures { result ≡ make_routines n m }
{
    let made = commands::make(n, m);
    let controller = made.state;
    let state = Routines {
        controller,
        active: [0; CORES],
        holder: [0; SOURCES],
    };
    RoutineAnswer {
        state,
        number: made.number,
        id: SourceId(0),
        cycles: 0,
    }
}

// One call: number, id, cycles and the simulation handed back.
pub fn call(s: Routines, c: RoutineCall) -> RoutineAnswer
    ensures { result ≡ call_routine s c }
{
    let controller = s.controller;
    let mut active = s.active;
    let mut holder = s.holder;
    let mut bytes = [0u8; STATE_SIZE];
    encoding::put_state(&mut bytes[..], controller);
    let mut ranking = routine_steps::begin(&bytes[..], &active[..], &holder[..]);
    let mut memory = Memory {
        state: &mut bytes[..],
        active: &mut active[..],
        holder: &mut holder[..],
    };
    let o = memory.step(&mut ranking, c);
    let (number, id, cycles) = routine_steps::numbers_of(o);
    let after = decoding::state_from(&bytes[..]);
    let state = Routines {
        controller: after,
        active,
        holder,
    };
    RoutineAnswer {
        state,
        number,
        id,
        cycles,
    }
}
