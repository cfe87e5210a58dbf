// What is written of an action before it goes into a book, and why an action could not be written.
ghost use Rattle.std.specs.Prelude.{◌≡◌, ◌++◌, ◌∷◌, [], map, MatchResult};
ghost use Rattle.table.specs.Entries.{coded};
ghost use Rattle.book_theorems.specs.Writes.{write_literal};
ghost use Rattle.runs.specs.Extends.{Extends};

use fault::{Cause, Fault, Layer};
use rising::Literal;
use std::alloc::{AllocError, Global};
use table::{Head, Kind};

// The entries of an action, and the literals that it can bring about, as the task has them.
#[derive(Drop)]
pub struct Draft {
    pub entries: Vec<Head>,
    pub literals: Vec<Literal>,
}

impl Draft {
    // Nothing is written yet.
    pub fn new(alloc: Global) -> Draft
        ensures { (result.entries.items ≡ []) × (result.literals.items ≡ []) }
    {
        Draft {
            entries: Vec::new(alloc),
            literals: Vec::new(alloc),
        }
    }

    // What was written goes away, and its memory stays.
    pub fn clear(&mut self)
        ensures { (self.new.entries.items ≡ []) × (self.new.literals.items ≡ []) }
    {
        self.entries.clear();
        self.literals.clear();
    }
}

// Why an action could not be written.
#[derive(Clone, Copy, PartialEq, Eq, Debug)]
pub enum Stop {
    // there is no memory left
    NoMemory,
    // at this place of the task's table a literal adds an atom that is always false, or deletes one that is always true
    Clash(usize),
}

impl From<AllocError> for Stop {
    ghost use Rattle.runs.specs.declared.draft.Stop.TheVariants.{NoMemory};

    ghost from_gives = { λ _ stop. stop ≡ NoMemory };

    fn from(_: AllocError) -> Stop {
        Stop::NoMemory
    }
}

// Appends an entry.
pub(crate) fn write(out: &mut Vec<Head>, kind: Kind, operand: u32) -> Result<(), AllocError>
    ensures { MatchResult result (λ _. out.new.items ≡ out.old.items ++ (record { kind = kind; operand = operand } ∷ [])) (λ _. out.new.items ≡ out.old.items) }
{
    out.push(Head { kind, operand })?;
    Ok(())
}

// In the layer of books; the place of a clash is an entry of the task's table.
impl From<Stop> for Fault {
    ghost use Rattle.runs.specs.Clauses.{fault_of};

    ghost from_gives = { λ stop fault. fault ≡ fault_of stop };

    #[tactic(auto, unfolding(fault::specs::Faults::writing_cause))]
    fn from(stop: Stop) -> Fault {
        match stop {
            Stop::NoMemory => Fault::new(Cause::NoMemory, Layer::Book, 0),
            Stop::Clash(at) => Fault::new(Cause::LiteralClashes, Layer::Book, at as u64),
        }
    }
}

// Appends a literal on a fact: FACT, or NOT and FACT.
pub(crate) fn write_fact(out: &mut Vec<Head>, adds: bool, fact: u32) -> Result<(), AllocError>
    ensures { MatchResult result (λ _. map coded out.new.items ≡ map coded out.old.items ++ write_literal (record { adds = adds; atom = fact })) (λ _. Extends out.old.items out.new.items) }
{
    if !adds {
        write(out, Kind::Not, 0)?;
    }
    write(out, Kind::Fact, fact)
}

// Appends a literal, as the task has it.
pub(crate) fn note(literals: &mut Vec<Literal>, literal: Literal) -> Result<(), AllocError>
    ensures { MatchResult result (λ _. literals.new.items ≡ literals.old.items ++ (literal ∷ [])) (λ _. literals.new.items ≡ literals.old.items) }
{
    literals.push(literal)?;
    Ok(())
}
