// A state in a host's bytes: records are written where they lie, and with each of them the number that stands for its core or its source
// in arbitration. Nothing else changes a number, so they are right after each store.
// The bytes stand beside the numbers and not in one struct with them: decoding reads the bytes without the numbers, hosts lend them
// apart, and `steps` has the numbers of a sound state alone. Their length and the indices stand in the contracts and not in types of
// their own: docs/THEOREMS.md names these functions, and a narrower type would ask more of their callers.
#![tactic(auto)]

ghost use Rattle.std.specs.Prelude.{◌<◌, ◌≤◌, ◌≡◌, length, set};
ghost use Rattle.std.proofs.lemmas.List.Edits.{sets};
ghost use Rattle.model.specs.Records.{max_sources, max_cores};
ghost use Rattle.arbitration.specs.Places.{key_at, rank_at};
ghost use Rattle.layout.specs.Bytes.{state_size, source_bytes, core_bytes, state_from};
ghost use Rattle.in_place.specs.Held.{source_place, core_place, blank, with_keys, with_ranks, Numbered, NamesSource, PutsBack, Retracts, Delivers};
ghost use Rattle.in_place.specs.Steps.{Says};

use arbitration::places;
use model::{Accepted, CORES, Core, Refusal, SOURCES, Source, SourceId};

// What a command answers besides the state.
pub type Outcome = Result<Accepted, Refusal>;

// The numbers that stand for the cores and the sources in arbitration.
#[derive(Drop)]
pub struct Ranking {
    pub keys: [u32; CORES],
    pub ranks: [u32; SOURCES],
}

impl Ranking {
    // No number is made yet.
    pub fn new() -> Self
        ensures { result ≡ blank }
    {
        Ranking {
            keys: [0; CORES],
            ranks: [0; SOURCES],
        }
    }
}

// The same as document 01's number, 0 for success, with the claimed id, 0 for none, and the cycles. A function and no `From`, since
// Result and the tuple are std's.
pub fn numbers_of(o: Outcome) -> (u8, SourceId, u16)
    ensures { Says o result.0 result.1.0 result.2 }
{
    match o {
        Ok(a) => (0, a.id, a.cycles),
        Err(refusal) => (refusal.into(), SourceId(0), 0),
    }
}

// How many sources, and how many cores, the state has.
#[tactic(auto, unfolding(layout::specs::Bytes::state_from))]
pub fn sources_in(state: &[u8]) -> u16
    requires { length state.now ≡ state_size }
    ensures { result ≡ (state_from state.now).n }
{
    decoding::word_at(state, 0)
}

#[tactic(auto, unfolding(layout::specs::Bytes::state_from))]
pub fn cores_in(state: &[u8]) -> u16
    requires { length state.now ≡ state_size }
    ensures { result ≡ (state_from state.now).m }
{
    decoding::word_at(state, 2)
}

// The record of source i + 1, and below that of core k: two functions and no trait, as the two of encoding that they call.
pub fn put_source(state: &mut [u8], ranking: &mut Ranking, i: usize, r: Source)
    requires { (length state.old ≡ state_size) × (i < max_sources) }
    ensures { (state.new ≡ sets state.old (source_place i) (source_bytes r)) ×
        (ranking.new ≡ with_ranks ranking.old (set ranking.old.ranks i (rank_at i r))) }
{
    encoding::put_source_at(state, i, r);
    ranking.ranks[i] = places::rank_at(r, i);
}

// The record of core k.
pub fn put_core(state: &mut [u8], ranking: &mut Ranking, k: usize, c: Core)
    requires { (length state.old ≡ state_size) × (k < max_cores) }
    ensures { (state.new ≡ sets state.old (core_place k) (core_bytes c)) ×
        (ranking.new ≡ with_keys ranking.old (set ranking.old.keys k (key_at k c))) }
{
    encoding::put_core_at(state, k, c);
    ranking.keys[k] = places::key_at(c, k);
}

// The request in the box of core record c, if there is one, goes back to waiting.
fn put_back(state: &mut [u8], ranking: &mut Ranking, c: Core)
    requires { (length state.old ≡ state_size) × NamesSource c.message }
    ensures { PutsBack c.message state.old ranking.old state.new ranking.new }
{
    if c.message.filled {
        let old = c.message.source.0 as usize - 1;
        let r = decoding::source_at(state, old);
        put_source(state, ranking, old, records::with_delivered(r, false));
    }
}

// The box of core k, whose record is c, is emptied, and its request waits.
pub fn retract(state: &mut [u8], ranking: &mut Ranking, k: usize, c: Core)
    requires { (length state.old ≡ state_size) × (k < max_cores) × NamesSource c.message }
    ensures { Retracts k c state.old ranking.old state.new ranking.new }
{
    put_back(state, ranking, c);
    put_core(state, ranking, k, records::emptied(c));
}

// The request of source i + 1, whose record is r, goes into the box of core k, whose record is c.
pub fn deliver(state: &mut [u8], ranking: &mut Ranking, i: usize, r: Source, k: usize, c: Core)
    requires { (length state.old ≡ state_size) × (i < max_sources) × (k < max_cores) × NamesSource c.message }
    ensures { Delivers i r k c state.old ranking.old state.new ranking.new }
{
    put_back(state, ranking, c);
    put_source(state, ranking, i, records::with_delivered(r, true));
    put_core(
        state,
        ranking,
        k,
        records::filled_with(c, SourceId(i as u16 + 1), r.priority),
    );
}

// The numbers of all cores and all sources in use.
pub fn number_all(state: &[u8], ranking: &mut Ranking)
    requires { (length state.now ≡ state_size) × ((state_from state.now).n ≤ max_sources) × ((state_from state.now).m ≤ max_cores) }
    ensures { Numbered (state_from state.now) ranking.new }
{
    for k in 0..cores_in(state) as usize {
        ranking.keys[k] = places::key_at(decoding::core_at(state, k), k);
    }
    for i in 0..sources_in(state) as usize {
        ranking.ranks[i] = places::rank_at(decoding::source_at(state, i), i);
    }
}
