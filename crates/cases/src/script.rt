// Document 01's "Table of runs", and two runs of document 02.
use crate::print::Owner;
use model::Command::{self, OnCore, OnSource};
use model::CoreAction::{Claim, SetCorePriority};
use model::SourceAction::{Complete, Mask, Redeliver, SetSourcePriority, Trigger};
use model::{CoreId, SourceId};

// What the table wants of a command: what it answers, the current priorities of core 0 and of core 1 after it, and who owns a request.
pub struct Wanted {
    pub number: u8,
    pub id: u16,
    pub cycles: u16,
    pub priorities: [u16; 2],
    pub request: u16,
    pub owner: Owner,
}

// A row of the table.
pub enum Step {
    // back to the table's start state
    Start,
    // a controller of these sizes is made, and let go
    Make { sources: u16, cores: u16 },
    // a command without a mark
    Run(Command),
    // a command marked T1 to T12, by its mark's number
    Marked(u8, Command, Wanted),
}

pub const SCRIPT: [Step; 59] = [
    // T1: source 4 masked
    Step::Start,
    Step::Run(OnSource(SourceId(4), Mask)),
    Step::Marked(
        1,
        OnSource(SourceId(4), Trigger),
        Wanted {
            number: 0,
            id: 0,
            cycles: 0,
            priorities: [0, 0],
            request: 4,
            owner: Owner::Source,
        },
    ),
    // T2 to T8, one after the other
    Step::Start,
    Step::Marked(
        2,
        OnSource(SourceId(4), Trigger),
        Wanted {
            number: 0,
            id: 0,
            cycles: 1,
            priorities: [4, 0],
            request: 4,
            owner: Owner::Box(0),
        },
    ),
    Step::Marked(
        3,
        OnSource(SourceId(3), Trigger),
        Wanted {
            number: 0,
            id: 0,
            cycles: 1,
            priorities: [4, 3],
            request: 3,
            owner: Owner::Box(1),
        },
    ),
    Step::Marked(
        4,
        OnSource(SourceId(5), Trigger),
        Wanted {
            number: 0,
            id: 0,
            cycles: 1,
            priorities: [4, 5],
            request: 3,
            owner: Owner::Source,
        },
    ),
    Step::Marked(
        5,
        OnCore(CoreId(0), Claim),
        Wanted {
            number: 0,
            id: 4,
            cycles: 0,
            priorities: [4, 5],
            request: 4,
            owner: Owner::Software,
        },
    ),
    Step::Marked(
        5,
        OnCore(CoreId(0), Claim),
        Wanted {
            number: 7,
            id: 0,
            cycles: 0,
            priorities: [4, 5],
            request: 4,
            owner: Owner::Software,
        },
    ),
    Step::Marked(
        6,
        OnSource(SourceId(5), Complete),
        Wanted {
            number: 8,
            id: 0,
            cycles: 0,
            priorities: [4, 5],
            request: 5,
            owner: Owner::Box(1),
        },
    ),
    Step::Marked(
        7,
        OnSource(SourceId(4), Complete),
        Wanted {
            number: 0,
            id: 0,
            cycles: 0,
            priorities: [4, 5],
            request: 3,
            owner: Owner::Source,
        },
    ),
    Step::Marked(
        8,
        OnCore(CoreId(0), SetCorePriority(0)),
        Wanted {
            number: 0,
            id: 0,
            cycles: 3,
            priorities: [5, 3],
            request: 3,
            owner: Owner::Box(1),
        },
    ),
    // T9: the design paper's own example
    Step::Start,
    Step::Run(OnCore(CoreId(0), SetCorePriority(3))),
    Step::Run(OnCore(CoreId(1), SetCorePriority(100))),
    Step::Marked(
        9,
        OnSource(SourceId(4), Trigger),
        Wanted {
            number: 0,
            id: 0,
            cycles: 1,
            priorities: [4, 100],
            request: 4,
            owner: Owner::Box(0),
        },
    ),
    Step::Marked(
        9,
        OnCore(CoreId(1), SetCorePriority(0)),
        Wanted {
            number: 0,
            id: 0,
            cycles: 2,
            priorities: [3, 4],
            request: 4,
            owner: Owner::Box(1),
        },
    ),
    // T10, then set source 4 to 9, which document 02, request 5, refuses
    Step::Start,
    Step::Run(OnCore(CoreId(0), SetCorePriority(4))),
    Step::Run(OnCore(CoreId(1), SetCorePriority(4))),
    Step::Marked(
        10,
        OnSource(SourceId(4), Trigger),
        Wanted {
            number: 0,
            id: 0,
            cycles: 0,
            priorities: [4, 4],
            request: 4,
            owner: Owner::Source,
        },
    ),
    Step::Run(OnSource(SourceId(4), SetSourcePriority(9))),
    // T11
    Step::Start,
    Step::Run(OnSource(SourceId(4), Trigger)),
    Step::Run(OnCore(CoreId(0), Claim)),
    Step::Marked(
        11,
        OnSource(SourceId(4), Redeliver),
        Wanted {
            number: 0,
            id: 0,
            cycles: 1,
            priorities: [4, 4],
            request: 4,
            owner: Owner::Box(1),
        },
    ),
    // T12
    Step::Start,
    Step::Run(OnSource(SourceId(4), Trigger)),
    Step::Marked(
        12,
        OnSource(SourceId(4), Trigger),
        Wanted {
            number: 6,
            id: 0,
            cycles: 0,
            priorities: [4, 0],
            request: 4,
            owner: Owner::Box(0),
        },
    ),
    // document 02, request 2: of two cores at 3 the one whose box is filled gets the request of 9
    Step::Start,
    Step::Run(OnCore(CoreId(0), SetCorePriority(3))),
    Step::Run(OnCore(CoreId(1), SetCorePriority(1))),
    Step::Run(OnSource(SourceId(3), Trigger)),
    Step::Run(OnSource(SourceId(9), Trigger)),
    // priorities in and out of range; a bad id is found first
    Step::Start,
    Step::Run(OnSource(SourceId(4), SetSourcePriority(127))),
    Step::Run(OnSource(SourceId(4), SetSourcePriority(128))),
    Step::Run(OnSource(SourceId(4), SetSourcePriority(0))),
    Step::Run(OnCore(CoreId(1), SetCorePriority(0))),
    Step::Run(OnCore(CoreId(1), SetCorePriority(128))),
    Step::Run(OnSource(SourceId(33), SetSourcePriority(0))),
    Step::Run(OnCore(CoreId(2), SetCorePriority(0))),
    // in a box, then masked: it stays and can be claimed
    Step::Start,
    Step::Run(OnSource(SourceId(4), Trigger)),
    Step::Run(OnSource(SourceId(4), Mask)),
    Step::Run(OnCore(CoreId(0), Claim)),
    // after any set core priority it waits, masked
    Step::Start,
    Step::Run(OnSource(SourceId(4), Trigger)),
    Step::Run(OnSource(SourceId(4), Mask)),
    Step::Run(OnCore(CoreId(1), SetCorePriority(0))),
    // sizes
    Step::Make {
        sources: 1,
        cores: 1,
    },
    Step::Make {
        sources: 128,
        cores: 32,
    },
    Step::Make {
        sources: 0,
        cores: 1,
    },
    Step::Make {
        sources: 129,
        cores: 1,
    },
    Step::Make {
        sources: 1,
        cores: 0,
    },
    Step::Make {
        sources: 1,
        cores: 33,
    },
    // commands out of turn
    Step::Start,
    Step::Run(OnSource(SourceId(4), Redeliver)),
    Step::Run(OnSource(SourceId(0), Complete)),
];
