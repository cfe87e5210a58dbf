// What is at its limit in a task.
use crate::case::Case;
use crate::names::names;
use crate::nesting::nesting;
use crate::wide::{atoms, changes, literals};
use std::alloc::{AllocError, Global};

#[derive(Clone, Copy)]
pub(crate) enum Limit {
    Nesting,
    Atoms,
    Literals,
    Names,
    Changes,
}

pub(crate) const LIMITS: [Limit; 5] = [
    Limit::Nesting,
    Limit::Atoms,
    Limit::Literals,
    Limit::Names,
    Limit::Changes,
];

impl Limit {
    pub(crate) fn word(self) -> &'static str {
        match self {
            Limit::Nesting => "nesting",
            Limit::Atoms => "atoms",
            Limit::Literals => "literals",
            Limit::Names => "names",
            Limit::Changes => "changes",
        }
    }
}

// The task that goes to this limit.
pub(crate) fn build(alloc: Global, limit: Limit) -> Result<Case, AllocError> {
    match limit {
        Limit::Nesting => nesting(alloc),
        Limit::Atoms => atoms(alloc),
        Limit::Literals => literals(alloc),
        Limit::Names => names(alloc),
        Limit::Changes => changes(alloc),
    }
}
