// What the conditions of the refusals say, of the words that an operation has read: each word is read once.
ghost use Rattle.std.specs.Prelude.{◌≡◌, not};
ghost use Rattle.dictionary.specs.Dictionary.{is_type};
ghost use Rattle.checks.specs.Checks.{no_repository, not_opened, away as away_from, missing as missing_entry, no_writing, no_access, lacks_attribute, schemas_differ, type_foreign, types_differ, wrong_type, apart as apart_in};

use state::state::State;
use tables::view::share_set;
use words::fields::{REPOSITORIES, is_free, repository_in, schema_in, type_in};
use words::sets::has;

// Above 7.
pub fn no_repository(r: u32) -> bool
    ensures { result ≡ no_repository r }
{
    REPOSITORIES <= r
}

pub fn not_opened(s: State, r: u32) -> bool
    ensures { result ≡ not_opened s r }
{
    !has(s.repositories, r)
}

// The repository of a label is not open.
pub fn away(s: State, label: u64) -> bool
    ensures { result ≡ away_from s label }
{
    not_opened(s, repository_in(label))
}

// The first word of an entry is free, as it reads past the last entry too.
pub fn missing(first: u64) -> bool
    ensures { result ≡ missing_entry first }
{
    is_free(first)
}

// The model has no read-write access.
pub fn no_writing(s: State, m: u32) -> bool
    ensures { result ≡ no_writing s m }
{
    !has(s.rw, m)
}

pub fn no_access(s: State, m: u32) -> bool
    ensures { result ≡ no_access s m }
{
    !(has(s.ro, m) | has(s.rw, m))
}

// The type of a header has no attribute k.
pub fn lacks_attribute(header: u64, k: u32) -> bool
    ensures { result ≡ lacks_attribute header k }
{
    dictionary::attributes(type_in(header)) <= k
}

// Two labels are of different schemas.
pub fn schemas_differ(label: u64, other: u64) -> bool
    ensures { result ≡ schemas_differ label other }
{
    schema_in(label) != schema_in(other)
}

// Type t is of another schema than a label.
pub fn type_foreign(t: u32, label: u64) -> bool
    ensures { result ≡ type_foreign t label }
{
    dictionary::schema(t) != schema_in(label)
}

pub fn no_type(t: u32) -> bool
    ensures { result ≡ not (is_type t) }
{
    !dictionary::is_type(t)
}

pub fn types_differ(t: u32, u: u32) -> bool
    ensures { result ≡ types_differ t u }
{
    dictionary::schema(t) != dictionary::schema(u)
}

// A header is not of type `target` nor of a subtype.
pub fn wrong_type(header: u64, target: u32) -> bool
    ensures { result ≡ wrong_type header target }
{
    !dictionary::subtype(type_in(header), target)
}

// Models m and n are neither the same nor in one set.
pub fn apart(w: &[u64], m: u32, n: u32) -> bool
    ensures { result ≡ apart_in w.now m n }
{
    if m == n {
        return false;
    }
    !share_set(w, m, n)
}
