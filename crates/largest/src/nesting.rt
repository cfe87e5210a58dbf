// A task whose formulas and effects are 256 entries, each inside those before it.
use crate::case::Case;
use crate::limit::Limit;
use adl::Sizes;
use std::alloc::{AllocError, Global};
use table::Kind;
use trials::Rows;

// with no arguments: the only atom that changes
const SWITCH: u32 = 0;

// with three arguments: never true
const NEVER: u32 = 1;

const OBJECTS: u32 = 32;

// If the switch is on, under 255 ANDs with one part: turns it off, under 254 ANDs.
fn put_turning_off(rows: &mut Rows) -> Result<(), AllocError> {
    rows.put_operator(0)?;
    rows.put_often(Kind::And, 1, 255)?;
    rows.put(Kind::Atom, SWITCH)?;
    rows.put_often(Kind::And, 1, 254)?;
    rows.put_deleted(SWITCH, &[])
}

// If each of 32,768 triples is NEVER, under 249 NOTs: turns the switch on when it is off, which stands under 253 NOTs.
fn put_turning_on(rows: &mut Rows) -> Result<(), AllocError> {
    rows.put_operator(0)?;
    rows.put_often(Kind::Forall, 0, 3)?;
    rows.put_often(Kind::Not, 0, 249)?;
    rows.put_atom(NEVER, Kind::Variable, &[0, 1, 2])?;
    rows.put(Kind::When, 0)?;
    rows.put_often(Kind::Not, 0, 253)?;
    rows.put(Kind::Atom, SWITCH)?;
    rows.put(Kind::Atom, SWITCH)
}

// With 127 IMPLYs, each the first part of the one before it: turns the switch off.
fn put_implications(rows: &mut Rows) -> Result<(), AllocError> {
    rows.put_operator(0)?;
    rows.put_often(Kind::Imply, 0, 127)?;
    rows.put_often(Kind::Atom, SWITCH, 128)?;
    rows.put_deleted(SWITCH, &[])
}

// The goal is 255 NOTs and the switch, which is on at first.
pub(crate) fn nesting(alloc: Global) -> Result<Case, AllocError> {
    let mut rows = Rows::new(alloc);
    rows.put(Kind::TypeSet, u32::MAX)?;
    rows.put(Kind::Predicate, 0)?;
    rows.put(Kind::Predicate, 3)?;
    rows.put(Kind::Atom, SWITCH)?;
    rows.put_often(Kind::Not, 0, 255)?;
    rows.put(Kind::Atom, SWITCH)?;
    put_turning_off(&mut rows)?;
    put_turning_on(&mut rows)?;
    put_implications(&mut rows)?;
    let sizes = Sizes {
        objects: OBJECTS,
        types: 1,
        predicates: 2,
        facts: 1,
        operators: 3,
        entries: rows.count(),
    };
    Ok(Case {
        limit: Limit::Nesting,
        sizes,
        rows,
        objects: Some(&[]),
    })
}
