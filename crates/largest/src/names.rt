// A task with as many names as there can be, few of which become actions.
use crate::case::Case;
use crate::limit::Limit;
use adl::Sizes;
use std::alloc::{AllocError, Global};
use table::Kind;
use trials::Rows;

// of two objects; it never changes
const NEXT: u32 = 0;

const DONE: u32 = 1;

// Marks the object with the operator's number as done, if four different objects are each next to the one before.
fn put_marking(rows: &mut Rows, operator: u32) -> Result<(), AllocError> {
    rows.put_operator(4)?;
    rows.put(Kind::And, 3)?;
    rows.put_atom(NEXT, Kind::Variable, &[0, 1])?;
    rows.put_atom(NEXT, Kind::Variable, &[1, 2])?;
    rows.put_atom(NEXT, Kind::Variable, &[2, 3])?;
    rows.put_atom(DONE, Kind::Object, &[operator])
}

// Objects 0 to 3 stand in a ring. 32 operators have four parameters each, and all objects are to be done.
pub(crate) fn names(alloc: Global) -> Result<Case, AllocError> {
    let mut rows = Rows::new(alloc);
    rows.put(Kind::TypeSet, u32::MAX)?;
    rows.put(Kind::Predicate, 2)?;
    rows.put(Kind::Predicate, 1)?;
    for i in 0..4 {
        rows.put_atom(NEXT, Kind::Object, &[i, (i + 1) % 4])?;
    }
    rows.put(Kind::Forall, 0)?;
    rows.put_atom(DONE, Kind::Variable, &[0])?;
    for operator in 0..32 {
        put_marking(&mut rows, operator)?;
    }
    let sizes = Sizes {
        objects: 32,
        types: 1,
        predicates: 2,
        facts: 4,
        operators: 32,
        entries: rows.count(),
    };
    Ok(Case {
        limit: Limit::Names,
        sizes,
        rows,
        objects: Some(&[0, 1, 2, 3]),
    })
}
