// The operations that ask for a transaction.
ghost use Rattle.checks.specs.Quick.Asked.{Asks};
ghost use Rattle.session.specs.Rows.{reading as reading_of, reader_row};
ghost use Rattle.session.specs.Quick.Follows.{Follows};

use checks::conditions::{away, lacks_attribute, missing};
use checks::operations::Reader;
use checks::shared::{accessed, in_reach, refuse_if};
use state::refusals::{Place, Refusal, Refused};
use state::state::{Order, State};
use tables::view::{header_at, label_at, value_at};
use words::fields::{is_flagged, model_in, value_in};
use words::layout::Kind;
use words::sets::{has, with, without};

fn read_only_access(a: u32, s: &mut State, w: &[u64]) -> Result<u32, Refused>
    ensures { Follows (reader_row Reader.ReadOnlyAccess a 0) s.old w.now result s.new w.now }
{
    in_reach(
        label_at(w, Kind::Model, a),
        Refusal::MoNexs,
        Place::First,
        *s,
    )?;
    refuse_if(has(s.ro, a), Refusal::MxRo, Place::First)?;
    refuse_if(has(s.rw, a), Refusal::MxRw, Place::First)?;
    *s = s.with_access(with(s.ro, a), s.rw);
    Ok(0)
}

fn end_access(a: u32, s: &mut State, w: &[u64]) -> Result<u32, Refused>
    ensures { Follows (reader_row Reader.EndAccess a 0) s.old w.now result s.new w.now }
{
    accessed(label_at(w, Kind::Model, a), a, *s)?;
    *s = s.with_access(without(s.ro, a), without(s.rw, a));
    Ok(0)
}

// Of get and test.
fn reading(header: u64, k: u32, s: State, w: &[u64]) -> Result<(), Refused>
    ensures { Asks (reading_of header k s w.now) result }
{
    refuse_if(missing(header), Refusal::EiNexs, Place::First)?;
    let label = label_at(w, Kind::Model, model_in(header));
    refuse_if(away(s, label), Refusal::RpNopn, Place::First)?;
    refuse_if(lacks_attribute(header, k), Refusal::AtNdef, Place::Second)
}

fn get(i: u32, k: u32, s: &mut State, w: &[u64]) -> Result<u32, Refused>
    ensures { Follows (reader_row Reader.Get i k) s.old w.now result s.new w.now }
{
    let header = header_at(w, i);
    reading(header, k, *s, w)?;
    refuse_if(!is_flagged(header, k), Refusal::VaNset, Place::Second)?;
    *s = s.woken(model_in(header));
    Ok(value_in(value_at(w, i, k)))
}

fn test(i: u32, k: u32, s: &mut State, w: &[u64]) -> Result<u32, Refused>
    ensures { Follows (reader_row Reader.Test i k) s.old w.now result s.new w.now }
{
    let header = header_at(w, i);
    reading(header, k, *s, w)?;
    *s = s.woken(model_in(header));
    Ok(u32::from(is_flagged(header, k)))
}

pub fn read(op: Reader, o: Order, s: &mut State, w: &[u64]) -> Result<u32, Refused>
    ensures { Follows (reader_row op o.a o.b) s.old w.now result s.new w.now }
{
    match op {
        Reader::ReadOnlyAccess => read_only_access(o.a, s, w),
        Reader::EndAccess => end_access(o.a, s, w),
        Reader::Get => get(o.a, o.b, s, w),
        Reader::Test => test(o.a, o.b, s, w),
    }
}
