// The source table, as the caller lends it: whether it can be read, and where a child stands in it.
//
// No public function has a `requires`. The table is only read.
#![tactic(auto)]

ghost use Rattle.std.specs.Prelude.{◌≡◌};
ghost use Rattle.model.specs.Places.{unless_zero};
ghost use Rattle.model.specs.Table.{readable, child_entry, child_words};

use model::ChildIndex;

// Whether the table has an entry and a length that is a multiple of 5. If not, calls refuse 2.
pub fn is_readable(table: &[u64]) -> bool
    ensures { result ≡ readable table.now }
{
    !table.is_empty() && table.len() % 5 == 0
}

// The number of the first entry, from entry 1 on, that is child `index` of item `parent`.
pub fn child_entry(table: &[u64], parent: u64, index: ChildIndex) -> Option<u64>
    ensures { result ≡ unless_zero (child_entry table.now parent index.0) }
{
    for entry in 1..table.len() / 5 {
        let at = 5 * entry;
        if table[at] == parent && table[at + 1] == index.0 {
            return Some(entry as u64);
        }
    }
    None
}

// The five words of child `index` of item `parent`, as that stretch of the table; empty if the
// child is not listed.
pub fn child_words(table: &[u64], parent: u64, index: ChildIndex) -> &[u64]
    ensures { result.now ≡ child_words table.now parent index.0 }
{
    let Some(entry) = child_entry(table, parent, index) else {
        return &table[0..0];
    };
    let start = 5 * entry as usize;
    &table[start..start + 5]
}
