// The records of the interrupt controller, by value, and its commands. What they mean is said in specs/.
// Document 01, "The controller and its sources" and "What is held".
// Records that a host lends are in C's layout (`repr(C)`).
// Widths: ids, core numbers and priorities are u16, so that up to 1,023 sources with priorities up to 2,047 fit.
#![tactic(auto)]

ghost use Rattle.std.specs.Prelude.{◌≡◌, MatchResult, false};
ghost use Rattle.lists.specs.Numbers.{between};
ghost use Rattle.model.specs.Commands.{number_for, priority_in_use};

use std::fmt;

// The largest sizes: n is 1 to 128, m is 1 to 32.
pub const SOURCES: usize = 128;

pub const CORES: usize = 32;

// A source's id, 1 to n. Never a core number. 0 means none, and not an Option, since C's records hold it (`repr(C)`).
#[repr(C)]
#[derive(Clone, Copy, Debug, PartialEq, Eq)]
pub struct SourceId(pub u16);

// A core's number, 0 to m - 1. Never a source id.
#[derive(Clone, Copy)]
pub struct CoreId(pub u16);

// One interrupt source, with at most one request.
#[repr(C)]
#[derive(Clone, Copy)]
pub struct Source {
    // the priority of its next request
    pub configured: u16,
    pub masked: bool,
    pub pending: bool,
    pub delivered: bool,
    // the priority of the pending request, copied from the configured one at trigger; 0 when nothing is pending
    pub priority: u16,
    // the triggers refused because a request was pending already, held at 65,535
    pub dropped: u16,
}

// Room for one delivered request. Document 01: "box". C's record (`repr(C)`), so a flag says whether it is filled.
#[repr(C)]
#[derive(Clone, Copy)]
pub struct MessageBox {
    pub filled: bool,
    pub dirty: bool,
    // the request held, and its priority; both 0 when the box is empty
    pub source: SourceId,
    pub priority: u16,
}

// One core's interface to the controller.
#[repr(C)]
#[derive(Clone, Copy)]
pub struct Core {
    pub configured: u16,
    pub message: MessageBox,
}

// The whole state. Source id i stands at sources[i - 1], core k at cores[k];
// records past n and past m are kept as after a reset.
#[derive(Clone, Copy)]
pub struct Controller {
    pub n: u16,
    pub m: u16,
    pub sources: [Source; SOURCES],
    pub cores: [Core; CORES],
}

// What a command does to a source.
#[derive(Clone, Copy)]
pub enum SourceAction {
    SetSourcePriority(u16),
    Mask,
    Unmask,
    Trigger,
    Redeliver,
    Complete,
}

// What a command does to a core.
#[derive(Clone, Copy)]
pub enum CoreAction {
    SetCorePriority(u16),
    Claim,
}

// The eight commands, by their subject: what is done, and to which source or core.
#[derive(Clone, Copy)]
pub enum Command {
    OnSource(SourceId, SourceAction),
    OnCore(CoreId, CoreAction),
}

// Why a command is refused: document 01's "Numbers for no", and document 02's from 9 on. Answers hold the number; 0 is success.
#[derive(Clone, Copy, Debug, PartialEq, Eq)]
pub enum Refusal {
    // the state isn't sound, or a filled lent record is bad
    Malformed = 1,
    // a size out of range, or a lent list that is too long
    BadSize = 2,
    BadCore = 3,
    BadSource = 4,
    BadPriority = 5,
    AlreadyPending = 6,
    NothingToClaim = 7,
    NotClaimed = 8,
    // the priority belongs to a request that is pending
    PriorityInUse = 9,
}

impl From<Refusal> for u8 {
    ghost from_gives = { λ r number. number ≡ number_for r };

    fn from(r: Refusal) -> u8 {
        r as u8
    }
}

// A number that no refusal has.
#[derive(Clone, Copy, Debug, PartialEq, Eq)]
pub struct NoRefusal(pub u8);

impl TryFrom<u8> for Refusal {
    type Error = NoRefusal;

    ghost try_from_gives = { λ number r. MatchResult r (λ refusal. number_for refusal ≡ number) (λ e. between 1 priority_in_use number ≡ false) };

    fn try_from(number: u8) -> Result<Refusal, NoRefusal> {
        match number {
            1 => Ok(Refusal::Malformed),
            2 => Ok(Refusal::BadSize),
            3 => Ok(Refusal::BadCore),
            4 => Ok(Refusal::BadSource),
            5 => Ok(Refusal::BadPriority),
            6 => Ok(Refusal::AlreadyPending),
            7 => Ok(Refusal::NothingToClaim),
            8 => Ok(Refusal::NotClaimed),
            9 => Ok(Refusal::PriorityInUse),
            _ => Err(NoRefusal(number)),
        }
    }
}

impl fmt::Display for Refusal {
    fn fmt<W: fmt::Write>(&self, f: &mut fmt::Formatter<W>) -> fmt::Result {
        f.write_str(match self {
            Refusal::Malformed => "the state isn't sound, or the lent record is bad",
            Refusal::BadSize => "a size is out of range, or the lent list is too long",
            Refusal::BadCore => "there is no such core",
            Refusal::BadSource => "there is no such source",
            Refusal::BadPriority => "the priority is out of range",
            Refusal::AlreadyPending => "the source is pending already",
            Refusal::NothingToClaim => "the box is empty",
            Refusal::NotClaimed => "the request isn't claimed",
            Refusal::PriorityInUse => "the source is pending, so its priority stays",
        })
    }
}

// What an accepted command answers besides the state: the claimed id, 0 for every other command as in `Answer`, and the cycles of
// settling.
#[derive(Clone, Copy, Debug, PartialEq, Eq)]
pub struct Accepted {
    pub id: SourceId,
    pub cycles: u16,
}

impl Accepted {
    // Nothing is claimed.
    pub fn after(cycles: u16) -> Self
        ensures { (result.id.0 ≡ 0) × (result.cycles ≡ cycles) }
    {
        Accepted {
            id: SourceId(0),
            cycles,
        }
    }
}

// What every call answers: the state handed back, document 01's number (0 is success), the claimed id (0 for every other call), and
// the cycles of settling. Numbers and not a Result, since the theorems over any behaviour (`Behaviour`) speak of a number, an id and a
// state that every answer has.
#[derive(Clone, Copy)]
pub struct Answer {
    pub state: Controller,
    pub number: u8,
    pub id: SourceId,
    pub cycles: u16,
}

// What the search over a lent list answers, as C's record (`repr(C)`): document 01's number, and the position plus one of the first
// highest candidate, 0 for none.
#[repr(C)]
#[derive(Clone, Copy)]
pub struct Found {
    pub number: u8,
    pub position: u16,
}

// How many ranges of the comparator tree the search over a lent list looks into, with document 01's number, as C's record.
#[repr(C)]
#[derive(Clone, Copy)]
pub struct Ranged {
    pub number: u8,
    pub ranges: u16,
}

// What the claim of one core record gives: document 01's number, the claimed id, and the record after it, which a refusal hands back
// too. A number and not a Result, since `taken_from` says what it is.
#[derive(Clone, Copy)]
pub struct Taken {
    pub number: u8,
    pub id: SourceId,
    pub core: Core,
}

// What the claim of a lent record answers, as C's record.
#[repr(C)]
#[derive(Clone, Copy)]
pub struct Claimed {
    pub number: u8,
    pub id: SourceId,
}

// What one cycle of settling does.
#[derive(Clone, Copy)]
pub enum Cycle {
    Rest,
    // the core's dirty box is emptied
    Retract(CoreId),
    // the source's request goes into the core's box
    Deliver(SourceId, CoreId),
}
