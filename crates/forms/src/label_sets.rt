// The pairs of a label: the sets that a result of either kind begins with, and the numbers of such sets.
ghost use Rattle.std.specs.Prelude.{false, List, ◌≡◌, ℕ, ◌≤◌, ◌<◌, length, get_or};
ghost use Rattle.grammar.specs.Lists.{place, is_in, same_numbers};
ghost use Rattle.grammar.specs.ReadTable.{is_empty};
ghost use Rattle.grammar.specs.SingleTypeForm.{TypeSet};
ghost use Rattle.grammar.specs.Table.{Table};
ghost use Rattle.sets.specs.Sets.{member};
ghost use Rattle.union.specs.View.{Views};
ghost use Rattle.forms.specs.SetWords.{Ascending, SetsHeld, SetsCounted};
ghost use Rattle.forms.specs.Worklist.{SetRoom, NumbersOf};
ghost use Rattle.forms.specs.SetForms.{pairs_labelled, label_sets, set_label};

use crate::set_words::{put_some, set_number};
use sets::set::Set8;
use union::united::United;

// A number for each label, or for each pair.
#[derive(Clone, Copy)]
pub struct Numbers {
    pub of: [u8; 256],
}

// Those of some pairs that have a label.
pub fn labelled_pairs(v: United, pairs: Set8, label: usize) -> Set8
    requires { v.rules ≤ 256 }
    ensures { ((old add : List ℕ) (u : Table) → Views old add v u
        → member result.words 0 ≡ (λ p. is_in p (pairs_labelled u (member pairs.words 0) label))) × (length result.words ≡ 8) }
{
    let labels = v.labels;
    let mut set = Set8::empty();
    for p in 0..v.rules {
        let own = usize::from(labels[p]);
        if pairs.has(p) && own == label {
            set = set.with(p);
        }
    }
    set
}

// The label of a set: that of its first pair.
pub fn set_label(v: United, set: Set8) -> usize
    requires { v.rules ≤ 256 }
    ensures { (old add : List ℕ) (u : Table) (s : TypeSet) → Views old add v u → member set.words 0 ≡ (λ p. is_in p s)
        → Ascending s → is_empty s ≡ false → result ≡ set_label u s }
{
    let labels = v.labels;
    for p in 0..v.rules {
        if set.has(p) {
            return usize::from(labels[p]);
        }
    }
    0
}

// One set a label, in label order, laid down in the words; more than `most` are too many.
pub fn label_sets(
    most: usize,
    v: United,
    labels: usize,
    pairs: Set8,
    words: &mut [u32],
) -> Option<usize>
    requires { (most ≤ 128) × (v.rules ≤ 256) × SetRoom most words.old 0 }
    ensures { (old add : List ℕ) (u : Table) → Views old add v u → labels ≡ length u.labels
        → SetsCounted most words.new (label_sets u (member pairs.words 0)) result }
{
    let mut count: usize = 0;
    for l in 0..labels {
        let set = labelled_pairs(v, pairs, l);
        count = put_some(most, words, count, set)?;
    }
    Some(count)
}

// For each label the number, among the sets in the words, of the set of those of some pairs that have it.
pub fn label_numbers(v: United, labels: usize, pairs: Set8, words: &[u32], count: usize) -> Numbers
    requires { (v.rules ≤ 256) × (labels ≤ 256) × SetRoom 128 words.now count }
    ensures { ((old add : List ℕ) (u : Table) (sets : List TypeSet) → Views old add v u → SetsHeld words.now sets
        → count ≡ length sets → NumbersOf (λ l. place same_numbers (pairs_labelled u (member pairs.words 0) l) sets) labels result.of)
        × ((l : ℕ) → get_or result.of l 0 ≤ 128) }
{
    let mut of = [0u8; 256];
    for l in 0..labels {
        let set = labelled_pairs(v, pairs, l);
        of[l] = set_number(words, count, set) as u8;
    }
    Numbers { of }
}
