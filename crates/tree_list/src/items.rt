// What the table says of an item, if its entry is listed.
ghost use Rattle.std.specs.Prelude.{◌≡◌, ◌<◌, ltb};
ghost use Rattle.model.specs.Table.{word, entries, item_count, item_ongoing, item_version};

// Whether the table has an entry with this number.
pub fn is_listed(table: &[u64], entry: u64) -> bool
    ensures { result ≡ ltb entry (entries table.now) }
{
    entry < table.len() as u64 / 5
}

// Each function below asks for a listed entry: a type for one would have these functions as methods, and one more.
fn item_word(table: &[u64], entry: u64, k: usize) -> u64
    requires bound { entry < entries table.now }
    requires k_bound { k < 5 }
    ensures { result ≡ word table.now entry k }
{
    table[5 * (entry as usize) + k]
}

pub fn item_count(table: &[u64], entry: u64) -> u64
    requires { entry < entries table.now }
    ensures { result ≡ item_count table.now entry }
{
    item_word(table, entry, 2)
}

pub fn item_ongoing(table: &[u64], entry: u64) -> bool
    requires { entry < entries table.now }
    ensures { result ≡ item_ongoing table.now entry }
{
    item_word(table, entry, 3) == 0
}

pub fn item_version(table: &[u64], entry: u64) -> u64
    requires { entry < entries table.now }
    ensures { result ≡ item_version table.now entry }
{
    item_word(table, entry, 4)
}
