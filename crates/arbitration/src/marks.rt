// Marks over a row of keys: at each index the number of candidates before it, so that a range holds a candidate exactly if the marks
// of its two ends differ. Made once a call.
ghost use Rattle.std.specs.Prelude.{◌<◌, ◌≤◌, length};
ghost use Rattle.model.specs.Records.{max_sources};
ghost use Rattle.arbitration.specs.Marks.{MarksOf};

use model::SOURCES;

// The marks of a whole row of sources: one before each key, and one behind the last.
pub const MARKS: usize = SOURCES + 1;

// The marks of a row of keys; rank 0 is no candidate.
pub fn marks_of(keys: &[u32], marks: &mut [u16])
    requires { (length keys.now ≤ max_sources) × (length keys.now < length marks.old) }
    ensures { MarksOf keys.now (length keys.now) marks.new }
{
    let mut before = 0;
    marks[0] = before;
    for (i, &key) in keys.iter().enumerate() {
        if key > 0 {
            before += 1;
        }
        marks[i + 1] = before;
    }
}
