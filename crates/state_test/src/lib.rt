// The sound-state test on a state's bytes: each record is read where it lies, and the state is never held whole.
#![tactic(auto)]

ghost use Rattle.std.specs.Prelude.{◌+◌, ◌≤◌, ◌≡◌, length};
ghost use Rattle.model.specs.Records.{max_sources, max_cores};
ghost use Rattle.model.specs.WellFormed.{source_in_range, well_formed};
ghost use Rattle.lists.specs.Walks.{every};
ghost use Rattle.layout.specs.Bytes.{state_size, state_from};
ghost use Rattle.well_formed.specs.Survey.{survey_of};
ghost use Rattle.well_formed.specs.Loops.{spare_core, spare_source, cores_survey, sources_survey};
ghost use Rattle.state_test.specs.OnBytes.{Holds, repeating};

use layout::{CORE_SIZE, CORES_FROM, SOURCE_SIZE, SOURCES_FROM, STATE_SIZE};
use model::{CORES, SOURCES, Source};
use well_formed::{Survey, UNBOXED};

// Whether each byte between two places is the same as the one a step further on. No early answer, so that the compiler can compare many at
// once.
fn repeats(state: &[u8], from: usize, to: usize, step: usize) -> bool
    requires { (length state.now ≡ state_size) × (from ≤ to) × (to + step ≤ state_size) }
    ensures { result ≡ every to (repeating state.now step from) }
{
    let mut same = true;
    for at in from..to {
        same &= state[at] == state[at + step];
    }
    same
}

// Whether the cores from m on are fresh. Where all have the bytes of the first, as in a state that a call wrote, that one is tested; else
// each is, since a flag that is neither 0 nor 1 is read as off.
fn spare_cores(state: &[u8], m: usize) -> bool
    requires { (length state.now ≡ state_size) × (m ≤ max_cores) }
    ensures { result ≡ every max_cores (spare_core (state_from state.now).cores m) }
{
    if CORES <= m {
        return true;
    }
    let first = CORES_FROM + CORE_SIZE * m;
    if repeats(state, first, STATE_SIZE - CORE_SIZE, CORE_SIZE) {
        return well_formed::is_reset_core(decoding::core_at(state, m));
    }
    for k in m..CORES {
        if !well_formed::is_reset_core(decoding::core_at(state, k)) {
            return false;
        }
    }
    true
}

// Whether the sources from n on are fresh, in the same way. One function over a trait of the two rows is no plainer: with the trait, its two
// impls and its law it is twice as long, and proofs of the law would stand among the definitions of specs/.
fn spare_sources(state: &[u8], n: usize) -> bool
    requires { (length state.now ≡ state_size) × (n ≤ max_sources) }
    ensures { result ≡ every max_sources (spare_source (state_from state.now).sources n) }
{
    if SOURCES <= n {
        return true;
    }
    let first = SOURCES_FROM + SOURCE_SIZE * n;
    if repeats(state, first, CORES_FROM - SOURCE_SIZE, SOURCE_SIZE) {
        return well_formed::is_reset_source(decoding::source_at(state, n));
    }
    for i in n..SOURCES {
        if !well_formed::is_reset_source(decoding::source_at(state, i)) {
            return false;
        }
    }
    true
}

// The pass over the cores: those in use have priorities "0 to top" and boxes that are backed, each by a source of its own, and the others
// are fresh.
fn survey_cores(state: &[u8], n: u16, m: usize, top: u16) -> Option<Survey>
    requires { Holds state.now n m top }
    ensures { result ≡ cores_survey (state_from state.now) }
{
    if !spare_cores(state, m) {
        return None;
    }
    let mut seen = [false; SOURCES];
    let mut v = Survey {
        clean: true,
        lowest: records::current_priority(decoding::core_at(state, 0)),
        covered: 0,
        boxed: UNBOXED,
        waiting: 0,
    };
    for k in 0..m {
        let c = decoding::core_at(state, k);
        if !well_formed::core_in_range(c, n, top) {
            return None;
        }
        if c.message.filled {
            let at = usize::from(c.message.source.0) - 1;
            if seen[at] || !well_formed::is_backed(c, decoding::source_at(state, at)) {
                return None;
            }
            seen[at] = true;
        }
        v = well_formed::with_core(v, c);
    }
    Some(v)
}

// Whether a source's configured priority and that of its request, if it has one, are "1 to top"; without one, delivered is off and the
// request's priority is 0.
#[tactic(auto, unfolding(model::specs::WellFormed::source_in_range))]
fn source_in_range(r: Source, top: u16) -> bool
    ensures { result ≡ source_in_range top r }
{
    let request_fits = if r.pending {
        well_formed::in_range(r.priority, top)
    } else {
        r.priority == 0 && !r.delivered
    };
    well_formed::in_range(r.configured, top) && request_fits
}

// The pass over the sources, with what the cores have shown: the first n have priorities "1 to top", and the others are fresh.
fn survey_sources(v: Survey, state: &[u8], n: usize, top: u16) -> Option<Survey>
    requires { (length state.now ≡ state_size) × (n ≤ max_sources) }
    ensures { result ≡ sources_survey v (state_from state.now).sources n top }
{
    if !spare_sources(state, n) {
        return None;
    }
    let mut waiting = 0u16;
    for i in 0..n {
        let r = decoding::source_at(state, i);
        if !source_in_range(r, top) {
            return None;
        }
        if records::is_candidate(r) {
            waiting = waiting.max(r.priority);
        }
    }
    Some(Survey { waiting, ..v })
}

// One pass over a state's bytes; None where the state isn't consistent. Sizes, ids and priorities may be anything that their fields can
// hold.
pub fn survey(state: &[u8]) -> Option<Survey>
    requires { length state.now ≡ state_size }
    ensures { result ≡ survey_of (state_from state.now) }
{
    let n = decoding::word_at(state, 0);
    let m = decoding::word_at(state, 2);
    if !well_formed::sizes_in_range(n, m) {
        return None;
    }
    let top = records::top_priority(n) as u16;
    let v = survey_cores(state, n, usize::from(m), top)?;
    survey_sources(v, state, usize::from(n), top)
}

// Whether a state is sound: document 01, "A sound state", with document 02's clause, request 2. Flags are 1 or off, whatever else the
// byte is.
pub fn well_formed(state: &[u8]) -> bool
    requires { length state.now ≡ state_size }
    ensures { result ≡ well_formed (state_from state.now) }
{
    let Some(v) = survey(state) else {
        return false;
    };
    v.clean && v.waiting <= v.lowest && v.covered <= v.lowest && v.covered < v.boxed
}
