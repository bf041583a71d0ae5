// One record made, or read: what a command makes of a source or a core, and what is read off one.
#![tactic(auto)]

ghost use Rattle.std.specs.Prelude.{◌≡◌};
ghost use Rattle.model.specs.Records.{source_with, with_configured, with_mask, with_delivered, opened as opened_of, ended as ended_of, box_with};
ghost use Rattle.model.specs.Records.{dropped_one, empty_box, holding, core_with, reset as reset_of, answer};
ghost use Rattle.lists.specs.Numbers.{between};
ghost use Rattle.model.specs.Priorities.{top_priority};
ghost use Rattle.model.specs.Requests.{current_priority, candidate};
ghost use Rattle.model.specs.Arbitration.{rank as rank_of};
ghost use Rattle.model.specs.Commands.{claimed_core, source_after};

use model::{Answer, CORES, Controller, Core, MessageBox, SOURCES, Source, SourceAction, SourceId};

// ---- the records' values. Every literal of a state record in code stands here.

pub fn source_with(
    configured: u16,
    masked: bool,
    pending: bool,
    delivered: bool,
    priority: u16,
    dropped: u16,
) -> Source
    ensures { result ≡ source_with configured masked pending delivered priority dropped }
{
    Source {
        configured,
        masked,
        pending,
        delivered,
        priority,
        dropped,
    }
}

// The source with another priority for its next request.
pub fn with_configured(r: Source, p: u16) -> Source
    ensures { result ≡ with_configured p r }
{
    Source { configured: p, ..r }
}

// The source masked, or not.
pub fn with_mask(r: Source, masked: bool) -> Source
    ensures { result ≡ with_mask masked r }
{
    Source { masked, ..r }
}

// The source whose request is delivered, or not.
pub fn with_delivered(r: Source, delivered: bool) -> Source
    ensures { result ≡ with_delivered delivered r }
{
    Source { delivered, ..r }
}

// The source with a new request, at its configured priority.
pub fn opened(r: Source) -> Source
    ensures { result ≡ opened_of r }
{
    Source {
        pending: true,
        delivered: false,
        priority: r.configured,
        ..r
    }
}

// The source with no request any more.
pub fn ended(r: Source) -> Source
    ensures { result ≡ ended_of r }
{
    Source {
        pending: false,
        delivered: false,
        priority: 0,
        ..r
    }
}

// The source with one more dropped trigger, held at the largest count.
pub fn dropped_one(r: Source) -> Source
    ensures { result ≡ dropped_one r }
{
    Source {
        dropped: r.dropped.saturating_add(1),
        ..r
    }
}

pub fn box_with(filled: bool, dirty: bool, source: SourceId, priority: u16) -> MessageBox
    ensures { result ≡ box_with filled dirty source priority }
{
    MessageBox {
        filled,
        dirty,
        source,
        priority,
    }
}

pub fn core_with(configured: u16, message: MessageBox) -> Core
    ensures { result ≡ core_with configured message }
{
    Core {
        configured,
        message,
    }
}

pub fn empty_box() -> MessageBox
    ensures { result ≡ empty_box }
{
    box_with(false, false, SourceId(0), 0)
}

// The core with its box emptied.
pub fn emptied(c: Core) -> Core
    ensures { result ≡ core_with c.configured empty_box }
{
    Core {
        message: empty_box(),
        ..c
    }
}

// The core with a request in its box.
pub fn filled_with(c: Core, id: SourceId, p: u16) -> Core
    ensures { result ≡ core_with c.configured (holding id p) }
{
    Core {
        message: box_with(true, false, id, p),
        ..c
    }
}

// The core raised to its box's priority, and the box emptied.
pub fn claimed_core(c: Core) -> Core
    ensures { result ≡ claimed_core c }
{
    core_with(c.message.priority, empty_box())
}

// The source after an action, before settling.
pub fn source_after(a: SourceAction, r: Source) -> Source
    ensures { result ≡ source_after a r }
{
    match a {
        SourceAction::SetSourcePriority(p) => with_configured(r, p),
        SourceAction::Mask => with_mask(r, true),
        SourceAction::Unmask => with_mask(r, false),
        SourceAction::Trigger => opened(r),
        SourceAction::Redeliver => with_delivered(r, false),
        SourceAction::Complete => ended(r),
    }
}

// Document 01: "fresh". Any sizes; who asks for a controller checks them first.
pub fn reset(n: u16, m: u16) -> Controller
    ensures { result ≡ reset_of n m }
{
    let source = source_with(1, true, false, false, 0, 0);
    let core = core_with(0, empty_box());
    Controller {
        n,
        m,
        sources: [source; SOURCES],
        cores: [core; CORES],
    }
}

// ---- answers

// What a command answers, with the state that it hands back.
pub fn answer_with(state: Controller, number: u8, id: SourceId, cycles: u16) -> Answer
    ensures { result ≡ answer state number id.0 cycles }
{
    Answer {
        state,
        number,
        id,
        cycles,
    }
}

// ---- what is read off one record

// Whether x is 1 to top.
pub fn one_to(top: u32, x: u16) -> bool
    ensures { result ≡ between 1 top x }
{
    x != 0 && u32::from(x) <= top
}

// The top priority, 2^(floor(log2 n) + 2) - 1, from the leading zeros of n, the form that document 01 names; of no sources, 3.
pub fn top_priority(n: u16) -> u32
    ensures { result ≡ top_priority n }
{
    if n == 0 {
        return 3;
    }
    let width = 17 - n.leading_zeros();
    (1u32 << width) - 1
}

// The box's priority if the box is filled, else the configured one.
pub fn current_priority(c: Core) -> u16
    ensures { result ≡ current_priority c }
{
    if c.message.filled {
        c.message.priority
    } else {
        c.configured
    }
}

// Pending, not delivered, not masked.
pub fn is_candidate(r: Source) -> bool
    ensures { result ≡ candidate r }
{
    r.pending && !r.delivered && !r.masked
}

// What the comparator compares: 0 for no candidate, else one more than the request's priority.
pub fn rank(r: Source) -> u32
    ensures { result ≡ rank_of r }
{
    if is_candidate(r) {
        u32::from(r.priority) + 1
    } else {
        0
    }
}
