// Tasks for measuring: one whose names nearly all fall away, and one with a long book.
use crate::sizes::one_operator;
use adl::Sizes;
use std::alloc::{AllocError, Global};
use table::Kind;
use trials::Rows;

// Twenty places in a row, each linked to the next, which never changes; an operator goes along four that are linked: of 116,280 names few are left.
pub(crate) fn path(alloc: Global) -> Result<(Sizes, Rows), AllocError> {
    let mut rows = Rows::new(alloc);
    rows.put(Kind::TypeSet, u32::MAX >> 12)?;
    rows.put(Kind::Predicate, 2)?;
    rows.put(Kind::Predicate, 1)?;
    for place in 0..19 {
        rows.put_atom(0, Kind::Object, &[place, place + 1])?;
    }
    rows.put_atom(1, Kind::Object, &[0])?;
    rows.put_atom(1, Kind::Object, &[19])?;
    rows.put_operator(4)?;
    rows.put(Kind::And, 4)?;
    rows.put_atom(0, Kind::Variable, &[0, 1])?;
    rows.put_atom(0, Kind::Variable, &[1, 2])?;
    rows.put_atom(0, Kind::Variable, &[2, 3])?;
    rows.put_atom(1, Kind::Variable, &[0])?;
    rows.put(Kind::And, 2)?;
    rows.put_deleted(1, &[0])?;
    rows.put_atom(1, Kind::Variable, &[3])?;
    let sizes = one_operator(&rows, 20, 2, 20);
    Ok((sizes, rows))
}

// 32 objects and pairs of them: each of 29,760 names is an action of 17 entries.
pub(crate) fn pairs(alloc: Global) -> Result<(Sizes, Rows), AllocError> {
    let mut rows = Rows::new(alloc);
    rows.put(Kind::TypeSet, u32::MAX)?;
    rows.put(Kind::Predicate, 2)?;
    rows.put_atom(0, Kind::Object, &[0, 1])?;
    rows.put_atom(0, Kind::Object, &[1, 0])?;
    rows.put_operator(3)?;
    rows.put(Kind::And, 3)?;
    rows.put_atom(0, Kind::Variable, &[0, 1])?;
    rows.put_atom(0, Kind::Variable, &[1, 2])?;
    rows.put_atom(0, Kind::Variable, &[0, 2])?;
    rows.put(Kind::And, 5)?;
    rows.put_deleted(0, &[0, 1])?;
    rows.put_deleted(0, &[1, 2])?;
    rows.put_deleted(0, &[0, 2])?;
    rows.put_atom(0, Kind::Variable, &[1, 0])?;
    rows.put_atom(0, Kind::Variable, &[2, 1])?;
    let sizes = one_operator(&rows, 32, 1, 1);
    Ok((sizes, rows))
}
