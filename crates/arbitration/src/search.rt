// The search for the highest key by the comparator tree, without the ranges that hold no candidate. Document 02, 3/14.
ghost use Rattle.std.specs.Prelude.{◌≤◌, length};
ghost use Rattle.model.specs.Records.{max_sources};
ghost use Rattle.arbitration.specs.Marks.{MarksOf, Lookable, LookedInto, Searched};

// What a search answers: the index of the first highest key, and the number of ranges that were looked into.
#[derive(Clone, Copy, Debug, PartialEq, Eq)]
pub struct Looked {
    pub at: usize,
    pub ranges: u16,
}

// The first highest of the len keys from lo, of which one is a candidate's, and the ranges of their tree that hold a candidate. The
// range is halved until one key is left, a half without a candidate is skipped, and the left side keeps a tie. A range is a start and a
// length, and not two slices: the marks, one more than the keys, are read at the same indices.
fn look(keys: &[u32], marks: &[u16], lo: usize, len: usize) -> Looked
    requires { Lookable keys.now marks.now lo len }
    ensures { LookedInto keys.now lo len result }
{
    if len == 1 {
        return Looked { at: lo, ranges: 1 };
    }
    let half = len.div_ceil(2);
    let rest = len - half;
    let middle = lo + half;
    if marks[lo] == marks[middle] {
        let right = look(keys, marks, middle, rest);
        return Looked {
            ranges: right.ranges + 1,
            ..right
        };
    }
    let left = look(keys, marks, lo, half);
    if marks[middle] == marks[lo + len] {
        return Looked {
            ranges: left.ranges + 1,
            ..left
        };
    }
    let right = look(keys, marks, middle, rest);
    let ranges = left.ranges + right.ranges + 1;
    if keys[left.at] < keys[right.at] {
        Looked { ranges, ..right }
    } else {
        Looked { ranges, ..left }
    }
}

// The first highest of a row of keys, whose marks are lent, as the comparator tree over them answers; none if there is no candidate.
// Counted are the ranges of that tree that hold a candidate.
pub fn find(keys: &[u32], marks: &[u16]) -> Option<Looked>
    requires { (length keys.now ≤ max_sources) × MarksOf keys.now (length keys.now) marks.now }
    ensures { Searched keys.now (length keys.now) result }
{
    let n = keys.len();
    if marks[n] == 0 {
        return None;
    }
    Some(look(keys, marks, 0, n))
}
