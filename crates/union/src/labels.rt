// The labels of a union: the old names, then the addition's new names. Names stay where they stand in the bytes of their tables.
ghost use Rattle.std.specs.Prelude.{◌≡◌, [], ◌<◌, get_or};
ghost use Rattle.grammar.specs.Lists.{place};
ghost use Rattle.grammar.specs.Names.{same_name};
ghost use Rattle.grammar.specs.Table.{Table};
ghost use Rattle.reader.specs.TableIndex.{label_count, Indexes, TableIndexed};
ghost use Rattle.union.specs.UnitedLabels.{NamesHeld, names_if, new_names, united_names};
ghost use Rattle.union.specs.View.{Adding, AddingTo};

use reader::index::TableIndex;
use reader::labels::name_place;

// Where names stand in the bytes of a table, in order: where each begins, and 128 numbers later where it ends.
#[derive(Clone, Copy)]
pub struct Names {
    pub places: [u16; 256],
    pub count: usize,
}

// Names with one more, or as they are.
#[tactic(auto, unfolding(crate::specs::UnitedLabels::names_if))]
fn with_name(names: Names, from: u16, to: u16, new: bool) -> Names
    requires { names.count < 128 }
    ensures { result ≡ names_if new names from to }
{
    let mut more = names;
    if new {
        more.places[names.count] = from;
        more.places[128 + names.count] = to;
        more.count += 1;
    }
    more
}

// The addition's names that are not among the old. The labels of each table are lent as its index.
#[tactic(auto, using(crate::proofs::UnitedLabelsLaws::label_order, crate::proofs::UnitedLabelsLaws::label_within))]
pub fn new_names(old: &[u8], olds: &TableIndex, add: &[u8], adds: &TableIndex) -> Names
    requires { (TableIndexed old.now olds.now) × (TableIndexed add.now adds.now) }
    ensures { (g h : Table) → Indexes old.now olds.now g → Indexes add.now adds.now h
        → NamesHeld add.now result (new_names g.labels h.labels) }
{
    let old_count = olds.label_count();
    let mut fresh = Names {
        places: [0; 256],
        count: 0,
    };
    for i in 0..adds.label_count() {
        let from = adds.names[i];
        let to = adds.names[128 + i];
        let name = &add[usize::from(from)..usize::from(to)];
        let p = name_place(name, old, &olds.names, old_count);
        fresh = with_name(fresh, from, to, old_count <= p);
    }
    fresh
}

// The number that a label of the addition has in the union.
pub fn united_label(
    old: &[u8],
    olds: &TableIndex,
    add: &[u8],
    adds: &TableIndex,
    fresh: Names,
    label: usize,
) -> usize
    requires { (Adding old.now olds.now add.now adds.now fresh) × (label < label_count adds.now) }
    ensures { ((g h : Table) → AddingTo old.now olds.now add.now adds.now fresh g h
        → result ≡ place same_name (get_or h.labels label []) (united_names g.labels h.labels)) × (result < 256) }
{
    let count = olds.label_count();
    let name = &add[adds.label_from(label)..adds.label_to(label)];
    let p = name_place(name, old, &olds.names, count);
    if p < count {
        return p;
    }
    count + name_place(name, add, &fresh.places, fresh.count)
}
