// Facts gathered in a row of keys, in ascending order, each once (document 02, Point 3).
#![tactic(auto)]

ghost use Rattle.std.specs.Prelude.{◌≡◌, ◌*◌, ◌≤◌, ◌<◌, length};
ghost use mathlib.Core.List.{map};
ghost use Rattle.columns.specs.Lines.{over};
ghost use Rattle.table.specs.Tables.{row_of};
ghost use Rattle.gathering.specs.Keys.{key_of, fact_of_key, Narrow, Rises, Found, AddsTo};

use facts::Fact;
use insertion::insert;
use table_lines::put_fact;

// A key has 16 bits for each of a fact's numbers: the subject's above the predicate's, and these above the object's.
const PREDICATE: u64 = 65536;

const SUBJECT: u64 = 4294967296;

// The key of a fact, and the fact of a key. No `From`: neither type is of this crate, and not every fact has a key.
#[tactic(auto, unfolding(gathering::specs::Keys::key_of))]
fn key_of(f: Fact) -> u64
    requires { Narrow f }
    ensures { result ≡ key_of f }
{
    (f.subject as u64 * PREDICATE + f.predicate as u64) * PREDICATE + f.object as u64
}

#[tactic(auto, unfolding(gathering::specs::Keys::fact_of_key))]
fn fact_of_key(key: u64) -> Fact
    ensures { result ≡ fact_of_key key }
{
    Fact {
        subject: (key / SUBJECT) as u32,
        predicate: (key / PREDICATE % PREDICATE) as u32,
        object: (key % PREDICATE) as u32,
    }
}

// The keys of facts, rising, in the front of a lent row: memory is of fixed size, so no Vec.
#[derive(Drop)]
pub struct Keys<'a> {
    pub row: &'a mut [u64],
    pub len: usize,
    pub ghost rising: { Rises row.now len },
}

impl<'a> Keys<'a> {
    // No key.
    pub fn new(row: &'a mut [u64]) -> Keys<'a>
        ensures same_reference { result.row.ghost_name ≡ row.entry.ghost_name }
        ensures empty { (result.row.now ≡ row.old) × (result.len ≡ 0) }
    {
        Keys { row, len: 0 }
    }

    // Where the key stands, or else where it belongs.
    fn find(&self, key: u64) -> Result<usize, usize>
        ensures { Found self.now.row.now self.now.len key result }
    {
        self.row[..self.len].binary_search(&key)
    }

    // Puts the key of a fact among the others, unless it is there.
    pub fn add(&mut self, f: Fact)
        requires { (self.old.len < length self.old.row.now) × Narrow f }
        ensures same_reference { self.new.row.ghost_name ≡ self.old.row.ghost_name }
        ensures same_length { length self.new.row.now ≡ length self.old.row.now }
        ensures adds { AddsTo f self.old.row.now self.new.row.now self.old.len self.new.len }
    {
        let key = key_of(f);
        if let Err(k) = self.find(key) {
            insert(self.row, self.len, k, key);
            self.len += 1;
        }
    }
}

// Puts the numbers of the facts of keys into the front of a row. `reader::spread` does it with facts: over an iterator of facts one contract would
// need its items as a list, and say this again.
pub fn spread(keys: &[u64], row: &mut [u32])
    requires { 3 * length keys.now ≤ length row.old }
    ensures { row.new ≡ over (row_of (map fact_of_key keys.now)) row.old }
{
    for (i, &key) in keys.iter().enumerate() {
        put_fact(fact_of_key(key), row, i);
    }
}
