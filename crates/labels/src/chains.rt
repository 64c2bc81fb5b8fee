// Places below 128 that have keys, chained by their keys: from each place to the next one that has its key, and to the first of each key.
ghost use Rattle.std.specs.Prelude.{◌≡◌, ℕ, ◌<◌, get_or};
ghost use Rattle.reader.specs.TableIndex.{rule_label, rule_count};
ghost use Rattle.labels.specs.Chains.{Keyed, ChainAre, RulesChained};

use reader::index::TableIndex;

// At a place the next one that has its key, at 128 + k the first that has key k; the number of places where there is none.
pub fn chained(keys: &[u8; 128], count: usize) -> [u8; 257]
    requires { Keyed (λ i. get_or keys.now i 0) count }
    ensures { ChainAre (λ i. get_or keys.now i 0) count result }
{
    let none = count as u8;
    let mut next = [none; 257];
    for at in (0..count).rev() {
        let head = 128 + usize::from(keys[at]);
        next[at] = next[head];
        next[head] = at as u8;
    }
    next
}

// The label of each rule.
fn rule_labels(index: &TableIndex) -> [u8; 128]
    requires { Keyed (rule_label index.now) (rule_count index.now) }
    ensures { (i : ℕ) → i < rule_count index.now → get_or result i 0 ≡ rule_label index.now i }
{
    let rules = index.rule_count();
    let mut labels = [0u8; 128];
    for i in 0..rules {
        labels[i] = index.rule_label(i) as u8;
    }
    labels
}

// The rules, chained by their labels.
pub fn chained_rules(index: &TableIndex) -> [u8; 257]
    requires { Keyed (rule_label index.now) (rule_count index.now) }
    ensures { RulesChained index.now result }
{
    let labels = rule_labels(index);
    chained(&labels, index.rule_count())
}
