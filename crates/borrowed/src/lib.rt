// The calls on records that the host lends. Document 01, "Two further faces", and document 02, 3/14.
#![tactic(auto)]

ghost use Rattle.std.specs.Prelude.{◌≡◌};
ghost use Rattle.model.specs.Records.{claimed_as};
ghost use Rattle.borrowed.specs.Lent.{claimable as claimable_core, taken_from, found_in, ranges_in};
ghost use Rattle.borrowed.specs.Keys.{taken_by, SoughtIn};

use arbitration::search::Looked;
use arbitration::{marks, search};
use model::{Claimed, Core, Found, Ranged, Refusal, SOURCES, Source, SourceId, Taken};

// ---- the claim of one core record

// Whether a filled box can be claimed.
#[tactic(auto, unfolding(crate::specs::Lent::claimable))]
fn claimable(c: Core) -> bool
    ensures { result ≡ claimable_core c }
{
    let b = c.message;
    checks::names_source(SOURCES as u16, b.source)
        && checks::is_source_priority(SOURCES as u16, b.priority)
        && b.priority > c.configured
        && !b.dirty
}

// The id that is claimed, and the record after it.
#[tactic(auto, unfolding(crate::specs::Lent::taken_from))]
fn claim(c: Core) -> Result<(SourceId, Core), Refusal>
    ensures { taken_by c result ≡ taken_from c }
{
    if !c.message.filled {
        return Err(Refusal::NothingToClaim);
    }
    if !claimable(c) {
        return Err(Refusal::Malformed);
    }
    Ok((c.message.source, records::claimed_core(c)))
}

// The claim of a core record by value. A refusal hands the record back as it was. The answer holds a number, as `taken_from` says it.
pub fn take(c: Core) -> Taken
    ensures { result ≡ taken_from c }
{
    match claim(c) {
        Ok((id, core)) => Taken {
            number: 0,
            id,
            core,
        },
        Err(refusal) => Taken {
            number: refusal.into(),
            id: SourceId(0),
            core: c,
        },
    }
}

// The same on a record that the host lends: it is taken apart, and written back also by a refusal, as it was.
pub fn psic_claim_in_place(c: &mut Core) -> Claimed
    ensures { (result ≡ claimed_as (taken_from c.old)) × (c.new ≡ (taken_from c.old).core) }
{
    let t = take(*c);
    *c = t.core;
    Claimed {
        number: t.number,
        id: t.id,
    }
}

// ---- the search over a lent list

// The search over a list that the host lends: the ranks are copied out and marked, and the comparator tree runs over them. Whatever
// the records hold: the list's order decides a tie. A list that is too long is refused, and none of its records is read.
fn seek(list: &[Source]) -> Result<Option<Looked>, Refusal>
    ensures { SoughtIn list.now result }
{
    if list.len() > SOURCES {
        return Err(Refusal::BadSize);
    }
    let mut keys = [0; SOURCES];
    for (i, &source) in list.iter().enumerate() {
        keys[i] = records::rank(source);
    }
    let keys = &keys[..list.len()];
    let mut marks = [0; marks::MARKS];
    marks::marks_of(keys, &mut marks);
    Ok(search::find(keys, &marks))
}

// Where the first highest candidate of a lent list stands. C's record holds the number beside the position, 0 for none.
pub fn psic_highest_in(list: &[Source]) -> Found
    ensures { result ≡ found_in list.now }
{
    match seek(list) {
        Ok(Some(looked)) => Found {
            number: 0,
            position: looked.at as u16 + 1,
        },
        Ok(None) => Found {
            number: 0,
            position: 0,
        },
        Err(refusal) => Found {
            number: refusal.into(),
            position: 0,
        },
    }
}

// How many ranges of the comparator tree over a lent list that search looks into. Document 02, 3/14.
pub fn psic_ranges_in(list: &[Source]) -> Ranged
    ensures { result ≡ ranges_in list.now }
{
    match seek(list) {
        Ok(Some(looked)) => Ranged {
            number: 0,
            ranges: looked.ranges,
        },
        Ok(None) => Ranged {
            number: 0,
            ranges: 0,
        },
        Err(refusal) => Ranged {
            number: refusal.into(),
            ranges: 0,
        },
    }
}
