// The labels of a result: those that its sets have, in label order.
ghost use Rattle.std.specs.Prelude.{ℕ, ◌+◌, ◌≤◌, ◌<◌, true, false, ◌⊎◌, List, [], ◌++◌, ◌≡◌, eqb, length, get_or};
ghost use Rattle.grammar.specs.Limits.{input_limit};
ghost use Rattle.grammar.specs.Lists.{keep, place, numbers_below};
ghost use Rattle.grammar.specs.Fields.{field_bytes};
ghost use Rattle.grammar.specs.ReadTable.{label_tag};
ghost use Rattle.reader.specs.TableIndex.{label_count};
ghost use Rattle.theory.specs.Alternatives.{only_if};
ghost use Rattle.sets.specs.Sets.{member, set_of_eight_at, KeptAround};
ghost use Rattle.union.specs.Places.{used_at};
ghost use Rattle.writer.specs.Writing.{Puts};
ghost use Rattle.results.specs.Results.{is_used, LabelsIn, SetsIn, labels_bytes};

use forms::label_sets::set_label;
use grammar::TooLarge;
use reader::index::TableIndex;
use reader::tags::LABEL_TAG;
use sets::set::Set8;
use union::labels::Names;
use union::places::USED;
use union::united::United;
use writer::writing::put_field;

// Finds the labels that the sets in the words have.
pub fn labels_used(v: United, words: &mut [u32], count: usize)
    requires { ((old : List ℕ) × (add : List ℕ) × SetsIn old add v words.old count) × (12288 ≤ length words.old) }
    ensures { ((old add : List ℕ) (q : SetsIn old add v words.old count)
        → set_of_eight_at words.new used_at ≡ is_used q.table q.sets)
        × KeptAround used_at 8 words.old words.new }
{
    let mut used = Set8::empty();
    for i in 0..count {
        let set = Set8::load(words, 8 * i);
        used = used.with(set_label(v, set));
    }
    used.store(words, USED);
}

// The place of a label among those used: how many of them come before it.
pub fn label_place(used: Set8, label: usize) -> usize
    requires { label < 256 }
    ensures { ((n : ℕ) → label < n → member used.words 0 label ≡ true
        → result ≡ place eqb label (keep (member used.words 0) (numbers_below n)))
        × (result ≤ label) }
{
    let mut place: usize = 0;
    for l in 0..label {
        if used.has(l) {
            place += 1;
        }
    }
    place
}

// Writes a label of a union. Its name stands in the old table or in the addition.
fn put_name(
    draft: &mut [u8],
    at: usize,
    old: &[u8],
    add: &[u8],
    olds: &TableIndex,
    news: Names,
    label: usize,
) -> Result<usize, TooLarge>
    requires { (at ≤ input_limit) × (input_limit ≤ length draft.old) × (label < label_count olds.now + news.count)
        × LabelsIn old.now add.now olds.now news }
    ensures { (q : LabelsIn old.now add.now olds.now news)
        → Puts draft.old at (field_bytes label_tag (get_or (q.first ++ q.second) label [])) draft.new result }
{
    let count = olds.label_count();
    if label < count {
        let from = olds.label_from(label);
        let to = olds.label_to(label);
        return put_field(draft, at, LABEL_TAG, &old[from..to]);
    }
    let l = label - count;
    let from = usize::from(news.places[l]);
    let to = usize::from(news.places[128 + l]);
    put_field(draft, at, LABEL_TAG, &add[from..to])
}

// The same, if the label is used.
fn put_label(
    draft: &mut [u8],
    at: usize,
    old: &[u8],
    add: &[u8],
    olds: &TableIndex,
    news: Names,
    label: usize,
    on: bool,
) -> Result<usize, TooLarge>
    requires { (at ≤ input_limit) × (input_limit ≤ length draft.old) × (label < label_count olds.now + news.count)
        × LabelsIn old.now add.now olds.now news }
    ensures { (q : LabelsIn old.now add.now olds.now news)
        → Puts draft.old at (only_if on (field_bytes label_tag (get_or (q.first ++ q.second) label [])))
        draft.new result }
{
    if on {
        return put_name(draft, at, old, add, olds, news, label);
    }
    Ok(at)
}

// Writes the labels that are used.
pub fn put_labels(
    draft: &mut [u8],
    old: &[u8],
    add: &[u8],
    olds: &TableIndex,
    news: Names,
    words: &[u32],
) -> Result<usize, TooLarge>
    requires { (input_limit ≤ length draft.old) × (12288 ≤ length words.now) × LabelsIn old.now add.now olds.now news }
    ensures { (q : LabelsIn old.now add.now olds.now news)
        → Puts draft.old 0 (labels_bytes (q.first ++ q.second) (set_of_eight_at words.now used_at))
        draft.new result }
{
    let used = Set8::load(words, USED);
    let labels = olds.label_count() + news.count;
    let mut end: usize = 0;
    for l in 0..labels {
        end = put_label(draft, end, old, add, olds, news, l, used.has(l))?;
    }
    Ok(end)
}
