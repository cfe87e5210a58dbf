// Tasks with as many atoms, and with as many changes in one effect, as there can be.
use crate::case::Case;
use crate::limit::Limit;
use adl::Sizes;
use std::alloc::{AllocError, Global};
use table::Kind;
use trials::Rows;

// The sizes of a task with 32 objects in one type and one operator.
fn sizes(rows: &Rows, predicates: u32, facts: u32) -> Sizes {
    Sizes {
        objects: 32,
        types: 1,
        predicates,
        facts,
        operators: 1,
        entries: rows.count(),
    }
}

// Two predicates of three arguments, and the first 4,086 triples of the first as facts.
fn put_triples(rows: &mut Rows) -> Result<(), AllocError> {
    rows.put(Kind::TypeSet, u32::MAX)?;
    rows.put(Kind::Predicate, 3)?;
    rows.put(Kind::Predicate, 3)?;
    for i in 0..4086 {
        rows.put_atom(0, Kind::Object, &[i / 1024, i / 32 % 32, i % 32])?;
    }
    Ok(())
}

// 65,536 atoms, and as many entries as a task may have. The goal is that every triple is true in both predicates; the step deletes and adds every
// triple of the first, and adds every triple of the second. Two TRUEs fill the table up.
pub(crate) fn atoms(alloc: Global) -> Result<Case, AllocError> {
    let mut rows = Rows::new(alloc);
    put_triples(&mut rows)?;
    rows.put_often(Kind::Forall, 0, 3)?;
    rows.put(Kind::And, 2)?;
    rows.put_atom(0, Kind::Variable, &[0, 1, 2])?;
    rows.put_atom(1, Kind::Variable, &[0, 1, 2])?;
    rows.put_operator(0)?;
    rows.put(Kind::And, 2)?;
    rows.put_often(Kind::True, 0, 2)?;
    rows.put(Kind::And, 2)?;
    rows.put_often(Kind::Forall, 0, 3)?;
    rows.put(Kind::And, 2)?;
    rows.put_deleted(0, &[0, 1, 2])?;
    rows.put_atom(0, Kind::Variable, &[0, 1, 2])?;
    rows.put_often(Kind::Forall, 0, 3)?;
    rows.put_atom(1, Kind::Variable, &[0, 1, 2])?;
    Ok(Case {
        limit: Limit::Atoms,
        sizes: sizes(&rows, 2, 4086),
        rows,
        objects: Some(&[]),
    })
}

// One step makes every triple true that is not, each under a WHEN of its own.
pub(crate) fn literals(alloc: Global) -> Result<Case, AllocError> {
    let mut rows = Rows::new(alloc);
    rows.put(Kind::TypeSet, u32::MAX)?;
    rows.put(Kind::Predicate, 3)?;
    rows.put_often(Kind::Forall, 0, 3)?;
    rows.put_atom(0, Kind::Variable, &[0, 1, 2])?;
    rows.put_operator(0)?;
    rows.put(Kind::True, 0)?;
    rows.put_often(Kind::Forall, 0, 3)?;
    rows.put(Kind::When, 0)?;
    rows.put_deleted(0, &[0, 1, 2])?;
    rows.put_atom(0, Kind::Variable, &[0, 1, 2])?;
    Ok(Case {
        limit: Limit::Literals,
        sizes: sizes(&rows, 1, 0),
        rows,
        objects: Some(&[]),
    })
}

// As many changes as an effect can have: 252 times one atom, for each of 32,768 triples.
pub(crate) fn changes(alloc: Global) -> Result<Case, AllocError> {
    let mut rows = Rows::new(alloc);
    rows.put(Kind::TypeSet, u32::MAX)?;
    rows.put(Kind::Predicate, 0)?;
    rows.put(Kind::Atom, 0)?;
    rows.put_operator(0)?;
    rows.put(Kind::True, 0)?;
    rows.put_often(Kind::Forall, 0, 3)?;
    rows.put(Kind::And, 252)?;
    rows.put_often(Kind::Atom, 0, 252)?;
    Ok(Case {
        limit: Limit::Changes,
        sizes: sizes(&rows, 1, 0),
        rows,
        objects: None,
    })
}
