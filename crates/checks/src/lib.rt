// What is checked of a command on a sound state: its id or core number, then what its own line of "Numbers for no" says. Nothing is
// changed.
#![tactic(auto)]

ghost use Rattle.std.specs.Prelude.{◌≡◌, ltb};
ghost use Rattle.lists.specs.Numbers.{between};
ghost use Rattle.model.specs.Priorities.{top_priority};
ghost use Rattle.model.specs.Commands.{number_in};
ghost use Rattle.checks.specs.Refusals.{source_refusal_by, core_refusal_by};

use model::{Core, CoreAction, CoreId, Refusal, Source, SourceAction, SourceId};

// Whether the id is 1 to n.
pub fn names_source(n: u16, id: SourceId) -> bool
    ensures { result ≡ between 1 n id.0 }
{
    records::one_to(n as u32, id.0)
}

// Whether the core's number is 0 to m - 1.
pub fn names_core(m: u16, core: CoreId) -> bool
    ensures { result ≡ ltb core.0 m }
{
    core.0 < m
}

// Whether a source may have the priority: 1 to the top one of n sources.
pub fn is_source_priority(n: u16, p: u16) -> bool
    ensures { result ≡ between 1 (top_priority n) p }
{
    records::one_to(records::top_priority(n), p)
}

// Whether an action on a source's record r is refused, and why; claimed says whether its request is.
pub fn source_refusal(n: u16, r: Source, claimed: bool, a: SourceAction) -> Result<(), Refusal>
    ensures { number_in result ≡ source_refusal_by n r claimed a }
{
    match a {
        SourceAction::SetSourcePriority(p) if !is_source_priority(n, p) => {
            Err(Refusal::BadPriority)
        }
        SourceAction::SetSourcePriority(_) if r.pending => Err(Refusal::PriorityInUse),
        SourceAction::Trigger if r.pending => Err(Refusal::AlreadyPending),
        SourceAction::Redeliver | SourceAction::Complete if !claimed => Err(Refusal::NotClaimed),
        _ => Ok(()),
    }
}

// Whether an action on a core's record c is refused, and why.
pub fn core_refusal(n: u16, c: Core, a: CoreAction) -> Result<(), Refusal>
    ensures { number_in result ≡ core_refusal_by n c a }
{
    match a {
        CoreAction::SetCorePriority(p) if p as u32 > records::top_priority(n) => {
            Err(Refusal::BadPriority)
        }
        CoreAction::Claim if !c.message.filled => Err(Refusal::NothingToClaim),
        _ => Ok(()),
    }
}
