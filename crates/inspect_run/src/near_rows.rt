ghost use Rattle.std.specs.Prelude.{◌≡◌, ◌++◌, All, IfOk, List, OnOk, map, slice_index_or, take, true, ℕ};
ghost use Rattle.std.specs.Prelude.{[]};
ghost use Rattle.std.specs.List.{flat_map};
ghost use Rattle.grace_quality.specs.Graces.{IsLeastGrace};
ghost use Rattle.grace_quality.specs.Near.{is_slight};
ghost use Rattle.grace_quality.specs.declared.near.NearRelation.{NearRelation};
ghost use Rattle.name_quality.specs.Names.{name_label};
ghost use Rattle.near_relations.specs.NearRelations.{named_request};
ghost use Rattle.inspect_run.specs.GraceRows.{grace_level, grace_row, label_under};
ghost use Rattle.inspect_run.specs.GraceRows.{near_kind_text, near_row, near_text};
ghost use Rattle.inspect_run.specs.inner.Graces.{relation_told};

use crate::Level;
use crate::row::{Row, push_byte_row, push_number, push_row};
use grace_quality::{NearKind, NearRelation, least_grace};
use name_quality::push_label;
use segment_names::Catalogue;
use std::alloc::{AllocError, Global};
use trace_types::{NameText, NamedTrace};

/// The most relations that are told.
const MOST: usize = 100;

/// Appends a name.
fn push_name_text(text: &mut Vec<u8>, name: &NameText) -> Result<(), AllocError>
    ensures { OnOk result (text.new.items ≡ text.old.items ++ name_label name.now) }
{
    let task = name.task.as_str().as_bytes();
    push_label(
        text,
        task,
        name.start.as_str().as_bytes(),
        name.end.as_str().as_bytes(),
    )
}

/// Appends the name with a number; of none the name of empty texts.
fn push_numbered(text: &mut Vec<u8>, catalogue: &Catalogue, number: u32) -> Result<(), AllocError>
    ensures { OnOk result
        (text.new.items ≡ text.old.items ++ label_under catalogue.now.names number) }
{
    if number < catalogue.names() {
        push_name_text(text, catalogue.text_of(number))
    } else {
        push_label(text, b"", b"", b"")
    }
}

/// Gives what a relation says of the two names between which it stands.
fn kind_text(kind: NearKind) -> &'static str
    ensures { result.now ≡ near_kind_text kind }
{
    match kind {
        NearKind::Order => " | happens before | ",
        NearKind::Exclusion => " | excludes | ",
    }
}

/// Appends a relation of two names, with the least grace under which it survives.
#[tactic(auto, unfolding(crate::specs::GraceRows::near_text))]
fn push_near_text(
    text: &mut Vec<u8>,
    catalogue: &Catalogue,
    relation: &NearRelation,
    micros: u32,
) -> Result<(), AllocError>
    ensures { OnOk result (text.new.items ≡ text.old.items ++ near_text relation.now.kind
        (label_under catalogue.now.names relation.now.first)
        (label_under catalogue.now.names relation.now.second) micros) }
{
    push_numbered(text, catalogue, relation.first)?;
    text.extend_from_slice(kind_text(relation.kind).as_bytes())?;
    push_numbered(text, catalogue, relation.second)?;
    text.extend_from_slice(b" | survives with a grace of ")?;
    push_number(text, u64::from(micros))
}

/// Lends the request of the trace with this index.
fn request_at(traces: &[NamedTrace], index: u32) -> &str
    ensures { result.now ≡ slice_index_or (map named_request traces.now) index [] }
{
    match traces.get(index as usize) {
        Some(trace) => trace.request.as_str(),
        None => "",
    }
}

/// Appends the row of a relation with its grace.
fn push_near(
    alloc: Global,
    text: &mut Vec<u8>,
    catalogue: &Catalogue,
    traces: &[NamedTrace],
    told: (NearRelation, u32),
) -> Result<(), AllocError>
    ensures { OnOk result (text.new.items ≡ text.old.items
        ++ near_row catalogue.now.names (map named_request traces.now) told) }
{
    let mut what = Vec::new(alloc);
    push_near_text(&mut what, catalogue, &told.0, told.1)?;
    push_byte_row(
        text,
        "grace",
        Level::Note,
        u64::from(told.0.refuted),
        u64::from(told.0.traces),
        request_at(traces, told.0.trace).as_bytes(),
        &what,
    )
}

/// Appends the rows of relations with their graces.
pub(crate) fn push_nears(
    alloc: Global,
    text: &mut Vec<u8>,
    catalogue: &Catalogue,
    traces: &[NamedTrace],
    told: &[(NearRelation, u32)],
) -> Result<(), AllocError>
    ensures { OnOk result (text.new.items ≡ text.old.items
        ++ flat_map (near_row catalogue.now.names (map named_request traces.now)) told.now) }
{
    'told: for index in 0..told.len() {
        push_near(alloc, text, catalogue, traces, told[index])?;
    }
    Ok(())
}

/// Gives the first relations, as many as are told.
fn first_relations(near: &[NearRelation]) -> &[NearRelation]
    ensures { result.now ≡ take 100 near.now }
{
    if near.len() > MOST {
        &near[..MOST]
    } else {
        near
    }
}

/// Gives a relation with the least grace under which it survives.
fn with_grace(relation: &NearRelation) -> (NearRelation, u32)
    requires { is_slight relation.now.gap ≡ true }
    ensures relation { result.0 ≡ relation.now }
    ensures grace { IsLeastGrace result.0.gap result.1 }
{
    (*relation, least_grace(relation.gap))
}

/// Lists relations with the least grace under which each survives.
fn list_each(alloc: Global, near: &[NearRelation]) -> Result<Vec<(NearRelation, u32)>, AllocError>
    requires { All (λ (r : NearRelation). is_slight r.gap ≡ true) near.now }
    ensures relations { IfOk result (λ told. map relation_told told.items ≡ near.now) }
    ensures graces { IfOk result (λ told.
        All (λ (t : NearRelation × ℕ). IsLeastGrace t.0.gap t.1) told.items) }
{
    let mut told = Vec::with_capacity(alloc, near.len())?;
    'near: for index in 0..near.len() {
        told.push(with_grace(&near[index]))?;
    }
    Ok(told)
}

/// Lists the first relations with the least grace under which each survives.
pub(crate) fn list_told(
    alloc: Global,
    near: &[NearRelation],
) -> Result<Vec<(NearRelation, u32)>, AllocError>
    requires { All (λ (r : NearRelation). is_slight r.gap ≡ true) near.now }
    ensures relations { IfOk result (λ told. map relation_told told.items ≡ take 100 near.now) }
    ensures graces { IfOk result (λ told.
        All (λ (t : NearRelation × ℕ). IsLeastGrace t.0.gap t.1) told.items) }
{
    list_each(alloc, first_relations(near))
}

/// Gives the level of so many relations that few traces refute.
fn grace_level(near: usize) -> Level
    ensures { result ≡ grace_level near }
{
    if near == 0 { Level::Fine } else { Level::Note }
}

/// Appends the row that tells how many relations few traces refute.
pub(crate) fn push_count(text: &mut Vec<u8>, near: usize, met: u64) -> Result<(), AllocError>
    ensures { OnOk result (text.new.items ≡ text.old.items ++ grace_row near met) }
{
    push_row(
        text,
        Row {
            kind: "grace",
            level: grace_level(near),
            count: near as u64,
            of: met,
            example: "-",
            what: "refuted by few, by less than 1 ms",
        },
    )
}
