// The interrupt routines on all cores: the state of their simulation and its calls, by value. What they mean is said in specs/.
// Document 02, 4/14; source document 002, Listing 1.
#![tactic(auto)]

use model::{CORES, Controller, CoreId, SOURCES, SourceAction, SourceId};

// The controller, and what the entry code keeps beside it: words and not Options, since hosts keep them in memory as they are, and
// `routines_in` reads any words.
#[derive(Clone, Copy)]
pub struct Routines {
    pub controller: Controller,
    // by core: the id of the request whose routine runs there; 0 for none
    pub active: [u16; CORES],
    // by source: the core that last held its request, plus one; 0 for none
    pub holder: [u16; SOURCES],
}

// The commands on a source that a run may hold. Redeliver and complete are given by the routines' code alone.
#[derive(Clone, Copy)]
pub enum DirectAction {
    SetPriority(u16),
    Mask,
    Unmask,
    Trigger,
}

// The controller's own command for a direct action.
impl From<DirectAction> for SourceAction {
    ghost use Rattle.std.specs.Prelude.{◌≡◌};
    ghost use Rattle.routines.specs.Routines.{action_of};

    ghost from_gives = { λ a o. o ≡ action_of a };

    fn from(a: DirectAction) -> SourceAction {
        match a {
            DirectAction::SetPriority(p) => SourceAction::SetSourcePriority(p),
            DirectAction::Mask => SourceAction::Mask,
            DirectAction::Unmask => SourceAction::Unmask,
            DirectAction::Trigger => SourceAction::Trigger,
        }
    }
}

// The calls of the simulation.
#[derive(Clone, Copy)]
pub enum RoutineCall {
    Direct(SourceId, DirectAction),
    Enter(CoreId),
    Exit(CoreId),
}

// What every call answers: the state handed back, the number (0 is success), the id that an entry claimed (0 for every other call),
// and the cycles of its commands, added. Numbers, as in `Answer`.
#[derive(Clone, Copy)]
pub struct RoutineAnswer {
    pub state: Routines,
    pub number: u8,
    pub id: SourceId,
    pub cycles: u16,
}
