// Whether tables are sound, clause by clause as the page has it.
ghost use Rattle.std.specs.Prelude.{◌≡◌, true, ◌&&◌, ◌<◌, slice_index};
ghost use Rattle.words.specs.declared.layout.Kind.TheVariants.{Model, SchemaInstance, Instance};
ghost use Rattle.words.specs.Layout.{count_of};
ghost use Rattle.logic.specs.Search.{all_b};
ghost use Rattle.tables.specs.Quick.Live.{AreLiveIn};
ghost use Rattle.tables.specs.Quick.Values.{live_fits, instance_fits};
ghost use Rattle.tables.specs.Quick.Labels.{sound_labels, tested_entries, same_entries, is_blank};
ghost use Rattle.tables.specs.Sound.{sound_cursor, sound_cursors, sound_group, sound_entries, sound_instances, sound_table, sound_tables};

use super::labels::test_labels;
use super::live::{Live, is_within};
use super::values::Words;
use super::view::{label_at, set_at};
use dictionary::is_type;
use words::copies::agree;
use words::entries::cursor_in;
use words::fields::{is_free, schema_in, type_in};
use words::layout::{Kind, WORDS, base, count};
use words::sets::is_empty;

// The words in use of a table, and its live models. Tried with `&self` in the methods: get in RO 0.58 to 0.67 of C.
#[derive(Clone, Copy)]
struct Table<'a> {
    words: &'a [u64; WORDS],
    models: Live,
    ghost told: { AreLiveIn words.now models },
}

impl<'a> Table<'a> {
    // A set holds live models of its own schema; of a free schema instance the set is empty (CHIP, sound tables).
    fn sound_group(self, s: u32) -> bool
        requires { (sound_labels self.words.now SchemaInstance ≡ true) × (s < count_of SchemaInstance) }
        ensures { result ≡ sound_group self.entry.words.now s }
    {
        let t = self.words;
        let label = label_at(t, Kind::SchemaInstance, s);
        let set = set_at(t, s);
        if is_free(label) {
            return is_empty(set);
        }
        is_within(set, self.models.of_schema(schema_in(label)))
    }

    fn sound_groups(self) -> bool
        requires { sound_labels self.words.now SchemaInstance ≡ true }
        ensures { result ≡ all_b (count_of SchemaInstance) (sound_group self.entry.words.now) }
    {
        (0..count(Kind::SchemaInstance)).all(|s| self.sound_group(s))
    }

    // A live instance by its header and its value words. In another order the tests are slower.
    fn live_fits(self, instance: Words) -> bool
        ensures { result ≡ live_fits self.entry.words.now self.entry.models instance.header (slice_index instance.values) }
    {
        // No type, or none of the ten. In a function of its own this test would not spare the matches on the type theirs.
        let ty = type_in(instance.header);
        if (instance.header % 256 == 0) | !is_type(ty) {
            return false;
        }
        let shape = dictionary::shape(ty);
        self.models.model_fits(ty, instance.header)
            && instance.fit(shape)
            && instance.reference_fits(self.words, shape)
    }

    // A reference to an instance with no type is refused here, where the page refuses that instance by itself: over all instances
    // that is the same.
    fn sound_instance(self, i: u32) -> bool
        requires { i < count_of Instance }
        ensures { result ≡ instance_fits self.entry.words.now self.entry.models i }
    {
        let instance = Words::at(self.words, i);
        if is_free(instance.header) {
            return instance.has_no_value();
        }
        self.live_fits(instance)
    }

    fn sound_instances(self) -> bool
        ensures { result ≡ sound_instances self.entry.words.now }
    {
        (0..count(Kind::Instance)).all(|i| self.sound_instance(i))
    }
}

// No model and no schema instance: the words before the first instance are 0. A chip in use mostly has model 0. Tried as
// `.all(|w| *w == 0)`: open, close session on a fresh chip 0.65 to 0.85 of C.
fn is_blank(t: &[u64; WORDS]) -> bool
    ensures { result ≡ is_blank t.now }
{
    t[0] == 0 && t[..base(Kind::Instance)].iter().fold(0, |d, w| d | w) == 0
}

// Models and schema instances.
fn test_entries(t: &[u64; WORDS]) -> Option<Live>
    ensures { result ≡ tested_entries t.now }
{
    if is_blank(t) {
        return Some(Live::nobody());
    }
    let models = test_labels(t, Kind::Model)?;
    test_labels(t, Kind::SchemaInstance)?;
    let table = Table { words: t, models };
    if !table.sound_groups() {
        return None;
    }
    Some(models)
}

fn sound_cursor(t: &[u64; WORDS], kind: Kind) -> bool
    ensures { result ≡ sound_cursor t.now kind }
{
    cursor_in(t, kind) < u64::from(count(kind))
}

// Each is the number of an entry. No branch stands between the three. Tried with `&&`: get in RO 0.57 to 0.62 of C.
fn sound_cursors(t: &[u64; WORDS]) -> bool
    ensures { result ≡ sound_cursors t.now }
{
    sound_cursor(t, Kind::Model)
        & sound_cursor(t, Kind::SchemaInstance)
        & sound_cursor(t, Kind::Instance)
}

// The table by its words. `sound_both` takes the same steps, and goes on with the table that they make.
fn sound_words(t: &[u64; WORDS]) -> bool
    ensures { result ≡ sound_table t.now }
{
    if !sound_cursors(t) {
        return false;
    }
    let Some(models) = test_entries(t) else {
        return false;
    };
    let table = Table { words: t, models };
    table.sound_instances()
}

pub fn sound_table(t: &[u64]) -> bool
    ensures { result ≡ sound_table t.now }
{
    let Some(t) = t.first_chunk() else {
        return false;
    };
    sound_words(t)
}

// The words before the first instance are the same. Tried as `==` of the two slices: put of a number 0.48 to 0.55 of C. Apart from
// `agree` of `words`, which goes over all words of slices of any length.
fn same_entries(a: &[u64; WORDS], b: &[u64; WORDS]) -> bool
    ensures { result ≡ same_entries a.now b.now }
{
    let n = base(Kind::Instance);
    a[..n].iter().zip(&b[..n]).fold(0, |d, (x, y)| d | (x ^ y)) == 0
}

// The kept table beside a working one whose entries are sound: entries that are the same need no second test.
fn sound_beside(working: Table, kept: &[u64; WORDS]) -> bool
    requires { sound_entries working.words.now ≡ true }
    ensures { result ≡ sound_table kept.now }
{
    if !sound_cursors(kept) {
        return false;
    }
    if same_entries(working.words, kept) {
        let table = Table {
            words: kept,
            models: working.models,
        };
        return table.sound_instances();
    }
    sound_words(kept)
}

fn sound_both(working: &[u64; WORDS], kept: &[u64; WORDS]) -> bool
    ensures { result ≡ (sound_table working.now && sound_table kept.now) }
{
    if !sound_cursors(working) {
        return false;
    }
    let Some(models) = test_entries(working) else {
        return false;
    };
    let table = Table {
        words: working,
        models,
    };
    table.sound_instances() && sound_beside(table, kept)
}

fn sound_pair(working: &[u64], kept: &[u64]) -> bool
    ensures { result ≡ (sound_table working.now && sound_table kept.now) }
{
    let Some(working) = working.first_chunk() else {
        return false;
    };
    let Some(kept) = kept.first_chunk() else {
        return false;
    };
    sound_both(working, kept)
}

// Unless a transaction writes, both tables agree: one of two that agree tells of both, in a transaction too.
pub fn sound_tables(writing: bool, working: &[u64], kept: &[u64]) -> bool
    ensures { result ≡ sound_tables writing working.now kept.now }
{
    if agree(working, kept) {
        return sound_table(working);
    }
    writing && sound_pair(working, kept)
}
