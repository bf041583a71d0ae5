// A core's key, or a source's rank, with its place in one number: the first of the least cores is one minimum, the first of the highest
// candidates one maximum, which the compiler takes several numbers at a time. They stay plain numbers, since `FilledBy`, `LowestOf` and
// `GreatestOf` speak of rows of numbers.
ghost use Rattle.std.specs.Prelude.{◌%◌, ◌<◌, ◌≤◌, ◌≡◌, length};
ghost use Rattle.model.specs.Records.{max_sources, max_cores};
ghost use Rattle.arbitration.specs.Places.{rank_step, key_at, rank_at, core_of, current_of, source_of, priority_of, LowestOf, GreatestOf};

use model::{CORES, Core, SOURCES, Source};

// A priority counts for two rows of cores: those whose box is filled, then those whose box is empty.
const KEY_STEP: u32 = 2 * CORES as u32;

// Above every id that there is room for.
const RANK_STEP: u32 = 2048;

// The number of core k, whose record is c.
pub fn key_at(c: Core, k: usize) -> u32
    requires { k < max_cores }
    ensures { result ≡ key_at k c }
{
    let b = c.message;
    if b.filled {
        KEY_STEP * b.priority as u32 + k as u32
    } else {
        KEY_STEP * c.configured as u32 + CORES as u32 + k as u32
    }
}

// The number of source i + 1, whose record is r; 0 for no candidate.
pub fn rank_at(r: Source, i: usize) -> u32
    requires { i < max_sources }
    ensures { result ≡ rank_at i r }
{
    if records::is_candidate(r) {
        RANK_STEP * r.priority as u32 + (SOURCES - i) as u32
    } else {
        0
    }
}

// The core that a number stands for, and its current priority.
pub fn core_of(key: u32) -> usize
    ensures { result ≡ core_of key }
{
    key as usize % CORES
}

pub fn current_of(key: u32) -> u32
    ensures { result ≡ current_of key }
{
    key / KEY_STEP
}

// The index of the source that a number stands for, and its request's priority.
pub fn source_of(rank: u32) -> usize
    requires { rank % rank_step ≤ max_sources }
    ensures { result ≡ source_of rank }
{
    SOURCES - (rank % RANK_STEP) as usize
}

pub fn priority_of(rank: u32) -> u32
    ensures { result ≡ priority_of rank }
{
    rank / RANK_STEP
}

// The least of a row. The first is looked at twice, so that as many are left as the compiler takes at a time.
pub fn lowest(keys: &[u32]) -> u32
    requires { 0 < length keys.now }
    ensures { LowestOf keys.now (length keys.now) result }
{
    keys.iter().fold(keys[0], |least, &key| least.min(key))
}

// The greatest of a row, in the same way.
pub fn greatest(ranks: &[u32]) -> u32
    requires { 0 < length ranks.now }
    ensures { GreatestOf ranks.now (length ranks.now) result }
{
    ranks.iter().fold(ranks[0], |top, &rank| top.max(rank))
}
