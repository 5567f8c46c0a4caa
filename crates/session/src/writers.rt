// The operations that ask for a transaction that writes: each asks its checks in the page's order, and then makes its change.
ghost use Rattle.std.specs.Prelude.{◌++◌, Some};
ghost use Rattle.words.specs.Fields.{label_of};
ghost use Rattle.dictionary.specs.declared.answers.Attribute.{Attribute};
ghost use Rattle.checks.specs.Quick.Asked.{Asks};
ghost use Rattle.state.specs.Numbers.{number_of};
ghost use Rattle.session.specs.Effects.{created as created_in};
ghost use Rattle.session.specs.Rows.{◌then◌, creating as creating_of, referring, writer_row};
ghost use Rattle.session.specs.Quick.Rows.{putting as putting_of};
ghost use Rattle.session.specs.Quick.Follows.{Follows};

use crate::effects::created;
use checks::conditions::{
    apart, lacks_attribute, missing, no_repository, no_type, not_opened, schemas_differ,
    type_foreign, wrong_type,
};
use checks::operations::Writer;
use checks::shared::{accessed, in_reach, refuse_if, writable};
use dictionary::Attribute;
use state::refusals::{Place, Refusal, Refused};
use state::state::{Order, State};
use tables::changes::{Change, apply};
use tables::deletions::held_back;
use tables::view::{header_at, label_at, set_at};
use words::fields::{header, is_schema, label, model_in, type_in};
use words::layout::Kind;
use words::search::is_taken;
use words::sets::{has, size, with, without};

// Of a model and of a schema instance; `taken` is the refusal for a name that the repository has. Apart from `create`, which
// hands on all that it is given: tried as one function, the goals of its four checks stay open.
fn creating(
    kind: Kind,
    taken: Refusal,
    repository: u32,
    schema: u32,
    name: u32,
    s: State,
    w: &[u64],
) -> Result<(), Refused>
    ensures { Asks (λ rest. creating_of kind (number_of taken) repository schema name s w.now ++ rest) result }
{
    refuse_if(no_repository(repository), Refusal::RpNexs, Place::First)?;
    refuse_if(not_opened(s, repository), Refusal::RpNopn, Place::First)?;
    refuse_if(!is_schema(schema), Refusal::SdNdef, Place::Second)?;
    refuse_if(is_taken(w, kind, repository, name), taken, Place::Third)
}

fn create(
    kind: Kind,
    taken: Refusal,
    repository: u32,
    schema: u32,
    name: u32,
    s: State,
    w: &mut [u64],
) -> Result<u32, Refused>
    ensures { Follows (λ s w. creating_of kind (number_of taken) repository schema name s w then created_in kind (label_of repository schema name) s w) s w.old result s w.new }
{
    creating(kind, taken, repository, schema, name, s, w)?;
    created(kind, label(repository, schema, name), s, w)
}

fn delete_model(a: u32, s: &mut State, w: &mut [u64]) -> Result<u32, Refused>
    ensures { Follows (writer_row Writer.DeleteModel a 0 0) s.old w.old result s.new w.new }
{
    writable(label_at(w, Kind::Model, a), Refusal::MoNexs, a, *s)?;
    refuse_if(
        held_back(w, Kind::Model, a, s.rw),
        Refusal::MxNrw,
        Place::Remaining,
    )?;
    *s = s.with_access(without(s.ro, a), without(s.rw, a));
    apply(w, Change::Gone(Kind::Model, a));
    Ok(0)
}

fn read_write_access(a: u32, s: &mut State, w: &[u64]) -> Result<u32, Refused>
    ensures { Follows (writer_row Writer.ReadWriteAccess a 0 0) s.old w.now result s.new w.now }
{
    in_reach(
        label_at(w, Kind::Model, a),
        Refusal::MoNexs,
        Place::First,
        *s,
    )?;
    refuse_if(has(s.rw, a), Refusal::MxRw, Place::First)?;
    refuse_if(has(s.ro, a), Refusal::MxRo, Place::First)?;
    *s = s.with_access(s.ro, with(s.rw, a));
    Ok(0)
}

// The repository is not asked for: a model with access is one of an open repository.
fn promote_model(a: u32, s: &mut State, w: &[u64]) -> Result<u32, Refused>
    ensures { Follows (writer_row Writer.PromoteModel a 0 0) s.old w.now result s.new w.now }
{
    accessed(label_at(w, Kind::Model, a), a, *s)?;
    refuse_if(has(s.rw, a), Refusal::MxRw, Place::First)?;
    *s = s.with_access(without(s.ro, a), with(s.rw, a));
    Ok(0)
}

fn delete_schema_instance(a: u32, s: State, w: &mut [u64]) -> Result<u32, Refused>
    ensures { Follows (writer_row Writer.DeleteSchemaInstance a 0 0) s w.old result s w.new }
{
    in_reach(
        label_at(w, Kind::SchemaInstance, a),
        Refusal::SiNexs,
        Place::First,
        s,
    )?;
    apply(w, Change::Gone(Kind::SchemaInstance, a));
    Ok(0)
}

// The value is how many models the set has then; so it is of a removal.
fn add_model(a: u32, b: u32, s: State, w: &mut [u64]) -> Result<u32, Refused>
    ensures { Follows (writer_row Writer.AddModel a b 0) s w.old result s w.new }
{
    let it = label_at(w, Kind::SchemaInstance, a);
    let model = label_at(w, Kind::Model, b);
    in_reach(it, Refusal::SiNexs, Place::First, s)?;
    in_reach(model, Refusal::MoNexs, Place::Second, s)?;
    refuse_if(schemas_differ(model, it), Refusal::MoNdeq, Place::Second)?;
    let set = with(set_at(w, a), b);
    apply(w, Change::Joined(a, b));
    Ok(size(set))
}

fn remove_model(a: u32, b: u32, s: State, w: &mut [u64]) -> Result<u32, Refused>
    ensures { Follows (writer_row Writer.RemoveModel a b 0) s w.old result s w.new }
{
    let set = set_at(w, a);
    in_reach(
        label_at(w, Kind::SchemaInstance, a),
        Refusal::SiNexs,
        Place::First,
        s,
    )?;
    refuse_if(
        missing(label_at(w, Kind::Model, b)),
        Refusal::MoNexs,
        Place::Second,
    )?;
    refuse_if(!has(set, b), Refusal::MoNvld, Place::Second)?;
    apply(w, Change::Left(a, b));
    Ok(size(without(set, b)))
}

fn create_instance(a: u32, b: u32, s: State, w: &mut [u64]) -> Result<u32, Refused>
    ensures { Follows (writer_row Writer.CreateInstance a b 0) s w.old result s w.new }
{
    let model = label_at(w, Kind::Model, a);
    writable(model, Refusal::MoNexs, a, s)?;
    refuse_if(no_type(b), Refusal::EdNdef, Place::Second)?;
    refuse_if(type_foreign(b, model), Refusal::EdNvld, Place::Second)?;
    created(Kind::Instance, header(b, a, 0), s, w)
}

fn delete_instance(a: u32, s: State, w: &mut [u64]) -> Result<u32, Refused>
    ensures { Follows (writer_row Writer.DeleteInstance a 0 0) s w.old result s w.new }
{
    let it = header_at(w, a);
    writable(it, Refusal::EiNexs, model_in(it), s)?;
    refuse_if(
        held_back(w, Kind::Instance, a, s.rw),
        Refusal::MxNrw,
        Place::Remaining,
    )?;
    apply(w, Change::Gone(Kind::Instance, a));
    Ok(0)
}

// Of a value v that is put as a reference to type `target`, in an instance of model m.
fn reference(target: u32, m: u32, v: u32, w: &[u64]) -> Result<(), Refused>
    ensures { Asks (λ rest. referring (Some (Attribute.Reference target)) m v w.now ++ rest) result }
{
    let it = header_at(w, v);
    refuse_if(missing(it), Refusal::VaNvld, Place::Third)?;
    refuse_if(wrong_type(it, target), Refusal::VtNvld, Place::Third)?;
    refuse_if(apart(w, m, model_in(it)), Refusal::MoNvld, Place::Third)
}

// Of a value v that is put as such an attribute, or where there is none, in an instance of model m. Only a reference asks more
// of it.
fn putting(attribute: Option<Attribute>, m: u32, v: u32, w: &[u64]) -> Result<(), Refused>
    ensures { Asks (λ rest. putting_of attribute m v w.now ++ rest) result }
{
    let Some(attribute) = attribute else {
        return Err(Refusal::AtNdef.on(Place::Second));
    };
    match attribute {
        Attribute::Whole => Ok(()),
        Attribute::Reference(target) => reference(target, m, v, w),
    }
}

// The attribute is asked for where the instance may be written, and once for all that hangs on it.
fn put(i: u32, k: u32, v: u32, s: State, w: &mut [u64]) -> Result<u32, Refused>
    ensures { Follows (writer_row Writer.Put i k v) s w.old result s w.new }
{
    let it = header_at(w, i);
    let m = model_in(it);
    writable(it, Refusal::EiNexs, m, s)?;
    putting(dictionary::attribute(type_in(it), k), m, v, w)?;
    apply(w, Change::Put(i, k, v));
    Ok(0)
}

fn unset(i: u32, k: u32, s: State, w: &mut [u64]) -> Result<u32, Refused>
    ensures { Follows (writer_row Writer.Unset i k 0) s w.old result s w.new }
{
    let it = header_at(w, i);
    writable(it, Refusal::EiNexs, model_in(it), s)?;
    refuse_if(lacks_attribute(it, k), Refusal::AtNdef, Place::Second)?;
    apply(w, Change::Unset(i, k));
    Ok(0)
}

pub fn write(op: Writer, o: Order, s: &mut State, w: &mut [u64]) -> Result<u32, Refused>
    ensures { Follows (writer_row op o.a o.b o.c) s.old w.old result s.new w.new }
{
    match op {
        Writer::CreateModel => create(Kind::Model, Refusal::MoDup, o.a, o.b, o.c, *s, w),
        Writer::DeleteModel => delete_model(o.a, s, w),
        Writer::ReadWriteAccess => read_write_access(o.a, s, w),
        Writer::PromoteModel => promote_model(o.a, s, w),
        Writer::CreateSchemaInstance => {
            create(Kind::SchemaInstance, Refusal::SiDup, o.a, o.b, o.c, *s, w)
        }
        Writer::DeleteSchemaInstance => delete_schema_instance(o.a, *s, w),
        Writer::AddModel => add_model(o.a, o.b, *s, w),
        Writer::RemoveModel => remove_model(o.a, o.b, *s, w),
        Writer::CreateInstance => create_instance(o.a, o.b, *s, w),
        Writer::DeleteInstance => delete_instance(o.a, *s, w),
        Writer::Put => put(o.a, o.b, o.c, *s, w),
        Writer::Unset => unset(o.a, o.b, *s, w),
    }
}
