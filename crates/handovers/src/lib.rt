// The table of handovers, as an array of arrays by value, and in a host's memory row after row.
// Document 01's form: "32 by 32 handover counts as an array of arrays by value".
#![tactic(auto)]

ghost use Rattle.std.specs.Prelude.{◌<◌, ◌≤◌, ◌≡◌, length};
ghost use Rattle.model.specs.Records.{max_cores};
ghost use Rattle.routines.specs.Routines.{holder_number, counted};
ghost use Rattle.routines.specs.Calls.{table_size, table_in, table_words};

use model::{CORES, CoreId};

// A core claims a request, whose last holder is given if it has one. The row is the core that held it, the column the one that claims
// it; the same core again is no handover, and a cell is held at its largest number.
pub fn count(
    table: [[u16; CORES]; CORES],
    from: Option<CoreId>,
    to: CoreId,
) -> [[u16; CORES]; CORES]
    requires { (holder_number from ≤ max_cores) × (to.0 < max_cores) }
    ensures { result ≡ counted table (holder_number from) to.0 }
{
    let mut t = table;
    if let Some(held) = from {
        let row = held.0 as usize;
        let column = to.0 as usize;
        if row != column {
            t[row][column] = t[row][column].saturating_add(1);
        }
    }
    t
}

// The table in a host's memory.
pub fn table_in(words: &[u16]) -> [[u16; CORES]; CORES]
    requires { length words.now ≡ table_size }
    ensures { result ≡ table_in words.now }
{
    let (rows, _) = words.as_chunks::<CORES>();
    let mut t = [[0; CORES]; CORES];
    t.copy_from_slice(rows);
    t
}

pub fn put_table(words: &mut [u16], t: [[u16; CORES]; CORES])
    requires { length words.old ≡ table_size }
    ensures { words.new ≡ table_words t }
{
    words.copy_from_slice(t.as_flattened());
}
