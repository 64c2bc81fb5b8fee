// The label that has a name, sought only among the labels that have the name's key.
ghost use Rattle.std.specs.Prelude.{◌≡◌, ℕ, ◌<◌, get_or};
ghost use Rattle.grammar.specs.Lists.{place};
ghost use Rattle.grammar.specs.Names.{same_name};
ghost use Rattle.grammar.specs.Table.{Table};
ghost use Rattle.reader.specs.TableIndex.{label_count, Indexes, TableIndexed};
ghost use Rattle.labels.specs.LabelKeys.{name_key, label_key, LabelsChained};

use crate::chains::chained;
use basis::names::same_name;
use reader::index::TableIndex;

// A number below 64 that equal names have in common.
fn name_key(name: &[u8]) -> u8
    ensures { result ≡ name_key name.now }
{
    let size = name.len();
    if size == 0 {
        return 0;
    }
    let first = usize::from(name[0]) % 32;
    let middle = usize::from(name[size / 2]) % 32;
    ((first + 7 * middle + size % 64) % 64) as u8
}

// The key of each label's name.
#[tactic(auto, using(crate::proofs::LabelKeyLaws::label_order, crate::proofs::LabelKeyLaws::label_within))]
fn label_keys(table: &[u8], index: &TableIndex) -> [u8; 128]
    requires { TableIndexed table.now index.now }
    ensures { (i : ℕ) → i < label_count index.now
        → get_or result i 0 ≡ label_key table.now index.now i }
{
    let labels = index.label_count();
    let mut keys = [0u8; 128];
    for i in 0..labels {
        let from = index.label_from(i);
        let to = index.label_to(i);
        keys[i] = name_key(&table[from..to]);
    }
    keys
}

// The labels, chained by the keys of their names.
pub fn chained_labels(table: &[u8], index: &TableIndex) -> [u8; 257]
    requires { TableIndexed table.now index.now }
    ensures { LabelsChained table.now index.now result }
{
    let keys = label_keys(table, index);
    chained(&keys, index.label_count())
}

// The place of a name among the names of the labels; their number where it is not there.
#[tactic(auto, using(crate::proofs::LabelKeyLaws::label_order, crate::proofs::LabelKeyLaws::label_within))]
pub fn label_of(name: &[u8], table: &[u8], index: &TableIndex, by_key: &[u8; 257]) -> usize
    requires { (TableIndexed table.now index.now) × (LabelsChained table.now index.now by_key.now) }
    ensures { (g : Table) → Indexes table.now index.now g
        → result ≡ place same_name name.now g.labels }
{
    let labels = index.label_count();
    let key = usize::from(name_key(name));
    let mut i = usize::from(by_key[128 + key]);
    // The labels of one key follow one another by links, not by their numbers.
    while i < labels {
        let from = index.label_from(i);
        let to = index.label_to(i);
        if same_name(name, &table[from..to]) {
            return i;
        }
        i = usize::from(by_key[i]);
    }
    labels
}
