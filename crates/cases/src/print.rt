// What a person reads: a command, its answer, and the state after it.
use model::{
    Answer, Command, Controller, CoreAction, CoreId, NoRefusal, Refusal, SourceAction, SourceId,
};
use std::fmt;

// A command in words: "set source 4 to 9".
#[derive(Drop)]
pub struct Words(pub Command);

impl fmt::Display for Words {
    fn fmt<W: fmt::Write>(&self, f: &mut fmt::Formatter<W>) -> fmt::Result {
        match self.0 {
            Command::OnSource(SourceId(id), action) => match action {
                SourceAction::SetSourcePriority(priority) => {
                    write!(f, "set source {id} to {priority}")
                }
                SourceAction::Mask => write!(f, "mask {id}"),
                SourceAction::Unmask => write!(f, "unmask {id}"),
                SourceAction::Trigger => write!(f, "trigger {id}"),
                SourceAction::Redeliver => write!(f, "redeliver {id}"),
                SourceAction::Complete => write!(f, "complete {id}"),
            },
            Command::OnCore(CoreId(core), action) => match action {
                CoreAction::SetCorePriority(priority) => write!(f, "set core {core} to {priority}"),
                CoreAction::Claim => write!(f, "claim on core {core}"),
            },
        }
    }
}

// How many there are of something: "1 cycle", "2 cycles".
#[derive(Drop)]
pub struct Count(pub u16, pub &'static str);

impl fmt::Display for Count {
    fn fmt<W: fmt::Write>(&self, f: &mut fmt::Formatter<W>) -> fmt::Result {
        let Count(count, what) = self;
        let ending = if *count == 1 { "" } else { "s" };
        write!(f, "{count} {what}{ending}")
    }
}

// Whether a command is accepted, by its answer's number: "accepted", or the number for no and its reason.
#[derive(Drop)]
pub struct Outcome(pub u8);

impl fmt::Display for Outcome {
    fn fmt<W: fmt::Write>(&self, f: &mut fmt::Formatter<W>) -> fmt::Result {
        match Refusal::try_from(self.0) {
            Ok(refusal) => write!(f, "refused by {} ({refusal})", self.0),
            Err(NoRefusal(0)) => write!(f, "accepted"),
            Err(NoRefusal(number)) => write!(f, "refused by {number}"),
        }
    }
}

// Who owns a pending request: its source, the software that claimed it, or the box of a core.
#[derive(Clone, Copy, PartialEq)]
pub enum Owner {
    Source,
    Software,
    Box(usize),
}

impl fmt::Display for Owner {
    fn fmt<W: fmt::Write>(&self, f: &mut fmt::Formatter<W>) -> fmt::Result {
        match self {
            Owner::Source => write!(f, "source"),
            Owner::Software => write!(f, "software"),
            Owner::Box(core) => write!(f, "box {core}"),
        }
    }
}

// The owner of a source's request, or none where nothing is pending.
pub fn owner_of(s: &Controller, id: u16) -> Option<Owner> {
    let source = s.sources.get((id as usize).checked_sub(1)?)?;
    if !source.pending {
        return None;
    }
    if !source.delivered {
        return Some(Owner::Source);
    }
    let holder = s
        .cores
        .iter()
        .take(s.m as usize)
        .position(|c| c.message.filled && c.message.source.0 == id);
    Some(holder.map_or(Owner::Software, Owner::Box))
}

// An answer: whether the command is accepted, the claimed id if there is one, the cycles, the current priorities, core 0 first, and each
// pending request's owner.
#[derive(Drop)]
pub struct Told<'a>(pub &'a Answer);

impl fmt::Display for Told<'_> {
    fn fmt<W: fmt::Write>(&self, f: &mut fmt::Formatter<W>) -> fmt::Result {
        let a = self.0;
        let s = &a.state;
        write!(f, "{}, ", Outcome(a.number))?;
        if a.id.0 > 0 {
            write!(f, "id {}, ", a.id.0)?;
        }
        write!(f, "{}, [", Count(a.cycles, "cycle"))?;
        for (k, core) in s.cores.iter().take(s.m as usize).enumerate() {
            let separator = if k == 0 { "" } else { "," };
            write!(f, "{separator}{}", records::current_priority(*core))?;
        }
        write!(f, "]")?;
        for id in 1..=s.n {
            if let Some(owner) = owner_of(s, id) {
                write!(f, "  {id}: {owner}")?;
            }
        }
        Ok(())
    }
}
