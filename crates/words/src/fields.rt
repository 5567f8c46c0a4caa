// The fields of the words: the label of a model or a schema instance, the header of an instance.
ghost use Rattle.std.specs.Prelude.{◌≡◌, ◌+◌, ◌<◌, ◌/◌, ◌%◌, cond, ltb, Some, None};
ghost use Rattle.words.specs.Fields.{label_of, name_in, repository_in, schema_in, is_schema, is_label, header_of, type_in, model_in, flagged, with_flag, without_flag, values, value_in, is_free, is_named};

use crate::sets;

pub const REPOSITORIES: u32 = 8;

// An instance has four value words and a flag for each.
pub const VALUES: u32 = 4;

// The bit of flag 0 in a header.
pub const FLAGS: u32 = 16;

// Repository and schema have eight bits each: what does not fit is cut.
pub fn label(repository: u32, schema: u32, name: u32) -> u64
    ensures { result ≡ label_of repository schema name }
{
    u64::from(name)
        + 0x1_0000_0000 * u64::from(repository % 256)
        + 0x100_0000_0000 * u64::from(schema % 256)
}

// The lower half of a word.
fn half(w: u64) -> u32
    ensures { result ≡ w % 0x1_0000_0000 }
{
    (w % 0x1_0000_0000) as u32
}

// Eight bits of a word, the lowest of them worth UNIT.
fn byte<const UNIT: u64>(w: u64) -> u32
    requires { 0 < UNIT }
    ensures { result ≡ w / UNIT % 256 }
{
    (w / UNIT % 256) as u32
}

pub fn name_in(label: u64) -> u32
    ensures { result ≡ name_in label }
{
    half(label)
}

pub fn repository_in(label: u64) -> u32
    ensures { result ≡ repository_in label }
{
    byte::<0x1_0000_0000>(label)
}

pub fn schema_in(label: u64) -> u32
    ensures { result ≡ schema_in label }
{
    byte::<0x100_0000_0000>(label)
}

pub fn is_schema(schema: u32) -> bool
    ensures { result ≡ is_schema schema }
{
    matches!(schema, 1..=2)
}

// Tried with `&&`: get in RO 0.59 to 0.61 of C.
pub fn is_label(w: u64) -> bool
    ensures { result ≡ is_label w }
{
    (w < 0x1_0000_0000_0000) & (repository_in(w) < REPOSITORIES) & is_schema(schema_in(w))
}

// Type, model and flags have eight bits each, as the fields of a label.
pub fn header(ty: u32, model: u32, flags: u32) -> u64
    ensures { result ≡ header_of ty model flags }
{
    1 + u64::from(ty % 256) + 0x100 * u64::from(model % 256) + 0x1_0000 * u64::from(flags % 256)
}

// Tried as `saturating_sub`: get in RO 0.59 to 0.75 of C.
pub fn type_in(header: u64) -> u32
    ensures { result ≡ type_in header }
{
    let low = header % 256;
    if low == 0 { 0 } else { (low - 1) as u32 }
}

pub fn model_in(header: u64) -> u32
    ensures { result ≡ model_in header }
{
    byte::<0x100>(header)
}

// The bit of flag k, where there is such a flag.
fn flag(k: u32) -> Option<u32>
    ensures { result ≡ cond (ltb k values) (Some (16 + k)) None }
{
    (k < VALUES).then(|| FLAGS + k)
}

// Whether attribute k is set.
pub fn is_flagged(header: u64, k: u32) -> bool
    ensures { result ≡ flagged header k }
{
    flag(k).is_some_and(|m| sets::has(header, m))
}

// Apart from `without_flag`: the two differ in the one call, and a function that is handed the call is no shorter.
pub fn with_flag(header: u64, k: u32) -> u64
    ensures { result ≡ with_flag header k }
{
    flag(k).map_or(header, |m| sets::with(header, m))
}

pub fn without_flag(header: u64, k: u32) -> u64
    ensures { result ≡ without_flag header k }
{
    flag(k).map_or(header, |m| sets::without(header, m))
}

// What a value word says.
pub fn value_in(w: u64) -> u32
    ensures { result ≡ value_in w }
{
    half(w)
}

pub fn is_free(w: u64) -> bool
    ensures { result ≡ is_free w }
{
    w == 0
}

// Repository and name are compared at once.
pub fn is_named(w: u64, repository: u32, name: u32) -> bool
    ensures { result ≡ is_named w repository name }
{
    w != 0 && w % 0x100_0000_0000 == u64::from(name) + 0x1_0000_0000 * u64::from(repository)
}
