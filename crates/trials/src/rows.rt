// A table that is built row by row.
ghost use Rattle.std.specs.Prelude.{◌≡◌, ◌∷◌, [], ◌<◌, ℕ, IfOk, length, min};
ghost use Rattle.std.proofs.Math.ListN.{replicate};
ghost use Rattle.table.specs.Kinds.{code_of};
ghost use Rattle.trials.specs.Rows.{Appended};

use std::alloc::{AllocError, Global};
use table::Kind;

// The codes of the kinds, and the operands.
#[derive(Drop)]
pub struct Rows {
    pub kinds: Vec<u8>,
    pub operands: Vec<u32>,
}

impl Rows {
    // A table of no rows.
    pub fn new(alloc: Global) -> Rows
        ensures { (result.kinds.items ≡ []) × (result.operands.items ≡ []) }
    {
        Rows {
            kinds: Vec::new(alloc),
            operands: Vec::new(alloc),
        }
    }

    // The number of rows, or the largest of 32 bits if there are more.
    pub fn count(&self) -> u32
        ensures { result ≡ min (length self.now.kinds.items) 4294967295 }
    {
        u32::try_from(self.kinds.len()).unwrap_or(u32::MAX)
    }

    // Appends a row.
    pub fn put(&mut self, kind: Kind, operand: u32) -> Result<(), AllocError>
        ensures { IfOk result (λ _. Appended (code_of kind ∷ []) (operand ∷ []) self.old self.new) }
    {
        self.kinds.push(u8::from(kind))?;
        self.operands.push(operand)?;
        Ok(())
    }

    // Appends the same row so many times.
    pub fn put_often(&mut self, kind: Kind, operand: u32, times: u32) -> Result<(), AllocError>
        ensures { IfOk result (λ _. Appended (replicate times (code_of kind)) (replicate times operand) self.old self.new) }
    {
        for _ in 0..times {
            self.put(kind, operand)?;
        }
        Ok(())
    }

    // Appends an atom with terms of one kind, objects or variables.
    pub fn put_atom(&mut self, predicate: u32, kind: Kind, terms: &[u32]) -> Result<(), AllocError>
        ensures { IfOk result (λ _. Appended (2 ∷ replicate (length terms.now) (code_of kind)) (predicate ∷ terms.now) self.old self.new) }
    {
        self.put(Kind::Atom, predicate)?;
        for term in terms {
            self.put(kind, *term)?;
        }
        Ok(())
    }

    // Appends an atom that is deleted, with variables as terms.
    pub fn put_deleted(&mut self, predicate: u32, variables: &[u32]) -> Result<(), AllocError>
        ensures { IfOk result (λ _. Appended (4 ∷ 2 ∷ replicate (length variables.now) 11) (0 ∷ predicate ∷ variables.now) self.old self.new) }
    {
        self.put(Kind::Not, 0)?;
        self.put_atom(predicate, Kind::Variable, variables)
    }

    // Appends an operator's head, with parameters of type 0.
    pub fn put_operator(&mut self, parameters: u32) -> Result<(), AllocError>
        ensures { IfOk result (λ _. Appended (16 ∷ replicate parameters 17) (parameters ∷ replicate parameters 0) self.old self.new) }
    {
        self.put(Kind::Operator, parameters)?;
        self.put_often(Kind::Parameter, 0, parameters)
    }
}
