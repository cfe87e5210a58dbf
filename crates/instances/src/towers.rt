// Towers of Hanoi: pegs are objects 0 to 2, discs the objects after them, the smallest first.
use crate::sizes::one_operator;
use adl::Sizes;
use std::alloc::{AllocError, Global};
use table::Kind;
use trials::Rows;

// a disc is smaller than another, or than a peg
const SMALLER: u32 = 0;

const ON: u32 = 1;

const CLEAR: u32 = 2;

// A disc is smaller than every peg and every later disc.
fn put_sizes(rows: &mut Rows, disc: u32, objects: u32) -> Result<(), AllocError> {
    for other in 0..objects {
        if other < 3 || other > disc {
            rows.put_atom(SMALLER, Kind::Object, &[disc, other])?;
        }
    }
    Ok(())
}

// Where every disc stands at first: on the next, and the last on a peg.
fn put_tower(rows: &mut Rows, objects: u32, peg: u32) -> Result<(), AllocError> {
    for disc in 3..objects {
        let below = if disc + 1 < objects { disc + 1 } else { peg };
        rows.put_atom(ON, Kind::Object, &[disc, below])?;
    }
    Ok(())
}

// Moves the first object from the second to the third.
fn put_move(rows: &mut Rows) -> Result<(), AllocError> {
    rows.put_operator(3)?;
    rows.put(Kind::And, 4)?;
    rows.put_atom(SMALLER, Kind::Variable, &[0, 2])?;
    rows.put_atom(ON, Kind::Variable, &[0, 1])?;
    rows.put_atom(CLEAR, Kind::Variable, &[0])?;
    rows.put_atom(CLEAR, Kind::Variable, &[2])?;
    rows.put(Kind::And, 4)?;
    rows.put_atom(CLEAR, Kind::Variable, &[1])?;
    rows.put_atom(ON, Kind::Variable, &[0, 2])?;
    rows.put_deleted(ON, &[0, 1])?;
    rows.put_deleted(CLEAR, &[2])
}

// The table of a task with so many discs, at most 29: all stand on the first peg, and are to stand on the last.
pub(crate) fn tower(alloc: Global, discs: u32) -> Result<(Sizes, Rows), AllocError> {
    let discs = discs.min(29);
    let objects = discs + 3;
    let mut rows = Rows::new(alloc);
    rows.put(Kind::TypeSet, u32::MAX >> (32 - objects))?;
    for arity in [2, 2, 1] {
        rows.put(Kind::Predicate, arity)?;
    }
    for disc in 3..objects {
        put_sizes(&mut rows, disc, objects)?;
    }
    put_tower(&mut rows, objects, 0)?;
    for clear in [1, 2, 3] {
        rows.put_atom(CLEAR, Kind::Object, &[clear])?;
    }
    rows.put(Kind::And, discs)?;
    put_tower(&mut rows, objects, 2)?;
    put_move(&mut rows)?;
    // each disc is smaller than three pegs and the later discs, and on something; three things are clear
    let facts = discs * (discs + 7) / 2 + 3;
    let sizes = one_operator(&rows, objects, 3, facts);
    Ok((sizes, rows))
}
