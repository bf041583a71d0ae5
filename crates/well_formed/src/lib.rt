// The sound-state test: what it asks of one record, whatever that holds. The passes over a state are the crate state_test.
#![tactic(auto)]

ghost use Rattle.std.specs.Prelude.{◌≡◌};
ghost use Rattle.lists.specs.Numbers.{between};
ghost use Rattle.model.specs.WellFormed.{sizes_in_range, is_empty_box, is_reset_source, is_reset_core};
ghost use Rattle.well_formed.specs.Survey.{covered_priority, boxed_priority};
ghost use Rattle.well_formed.specs.Loops.{is_idle, core_fits, backs, with_core};

use model::{CORES, Core, MessageBox, SOURCES, Source};

// Above every priority: what stands for a box's priority where no box is filled. 0 and this are what a maximum and a minimum begin at, so
// that no turn of the pass asks whether it met a box before, as it would with an Option.
pub const UNBOXED: u16 = u16::MAX;

// What one pass over a consistent state says of it. Consistent: sizes, ranges and blank values are right, and each filled box names its
// request; no source lies in two boxes.
#[derive(Clone, Copy)]
pub struct Survey {
    // no box is dirty
    pub clean: bool,
    // the least current priority
    pub lowest: u16,
    // the greatest configured priority under a filled box, 0 if no box is filled
    pub covered: u16,
    // the least priority of a filled box, UNBOXED if no box is filled
    pub boxed: u16,
    // the greatest priority of a candidate, 0 if there is none
    pub waiting: u16,
}

// Sizes in range: 1 to 128 sources, 1 to 32 cores.
#[tactic(auto, unfolding(model::specs::WellFormed::sizes_in_range))]
pub fn sizes_in_range(n: u16, m: u16) -> bool
    ensures { result ≡ sizes_in_range n m }
{
    (1..=SOURCES).contains(&usize::from(n)) && (1..=CORES).contains(&usize::from(m))
}

// Whether a number is "1 to top"; an id, 1 to n.
pub fn in_range(p: u16, top: u16) -> bool
    ensures { result ≡ between 1 top p }
{
    records::one_to(u32::from(top), p)
}

// Whether a box is blank: not filled, not dirty, id 0, priority 0.
#[tactic(auto, unfolding(model::specs::WellFormed::is_empty_box))]
fn is_empty_box(b: MessageBox) -> bool
    ensures { result ≡ is_empty_box b }
{
    !b.filled && !b.dirty && b.source.0 == 0 && b.priority == 0
}

// Whether a core is fresh: at 0, its box empty.
#[tactic(auto, unfolding(model::specs::WellFormed::is_reset_core))]
pub fn is_reset_core(c: Core) -> bool
    ensures { result ≡ is_reset_core c }
{
    c.configured == 0 && is_empty_box(c.message)
}

// Whether a source has no request, nothing pending, delivered off, the request's priority 0, and has dropped no trigger.
#[tactic(auto, unfolding(crate::specs::Loops::is_idle))]
fn is_idle(s: Source) -> bool
    ensures { result ≡ is_idle s }
{
    !s.pending && !s.delivered && s.priority == 0 && s.dropped == 0
}

// Whether a source is fresh: masked, of configured priority 1, with no request and nothing dropped. So nested, the compiler merges the
// tests.
#[tactic(auto, unfolding(model::specs::WellFormed::is_reset_source, crate::specs::Loops::is_idle))]
pub fn is_reset_source(s: Source) -> bool
    ensures { result ≡ is_reset_source s }
{
    s.configured == 1 && s.masked && is_idle(s)
}

// Whether "core priorities 0 to top" and the blank values hold of a core: a filled box has an id 1 to n, an unfilled one is empty.
#[tactic(auto, unfolding(crate::specs::Loops::core_fits, model::specs::WellFormed::core_in_range))]
pub fn core_in_range(c: Core, n: u16, top: u16) -> bool
    ensures { result ≡ core_fits n top c }
{
    let box_fits = if c.message.filled {
        in_range(c.message.source.0, n)
    } else {
        is_empty_box(c.message)
    };
    c.configured <= top && box_fits
}

// Whether a filled box's source is "pending and delivered, with the same priority, strictly above its core's configured priority"; a dirty
// box need not be above. That the id is in range is tested before.
#[tactic(auto, unfolding(crate::specs::Loops::backs))]
pub fn is_backed(c: Core, s: Source) -> bool
    ensures { result ≡ backs c s }
{
    s.pending
        && s.delivered
        && s.priority == c.message.priority
        && (c.message.dirty || c.configured < c.message.priority)
}

// The configured priority under a filled box; 0 where the box is empty.
fn covered_priority(c: Core) -> u16
    ensures { result ≡ covered_priority c }
{
    if c.message.filled { c.configured } else { 0 }
}

// The priority of a filled box; where the box is empty, one above every priority.
fn boxed_priority(c: Core) -> u16
    ensures { result ≡ boxed_priority c }
{
    if c.message.filled {
        c.message.priority
    } else {
        UNBOXED
    }
}

// What is found so far, with one core more.
#[tactic(auto, unfolding(crate::specs::Loops::with_core))]
pub fn with_core(v: Survey, c: Core) -> Survey
    ensures { result ≡ with_core v c }
{
    Survey {
        clean: v.clean && !c.message.dirty,
        lowest: v.lowest.min(records::current_priority(c)),
        covered: v.covered.max(covered_priority(c)),
        boxed: v.boxed.min(boxed_priority(c)),
        ..v
    }
}
