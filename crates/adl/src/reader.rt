// Checking the formulas and effects of a task table: the place after each, or its first fault.
ghost use Rattle.std.specs.Prelude.{◌≡◌, ℕ, ◌+◌, ◌-◌, ◌<◌, ◌≤◌, true, IfOk, OnOk};
ghost use Rattle.table.specs.Kinds.{code_of};
ghost use Rattle.table.specs.Entries.{coded, all_coded};
ghost use Rattle.adl.specs.Tables.{is_quantifier, within_bounds, in_range, outermost as outermost_at, deeper as inside, head};
ghost use Rattle.adl.specs.Reads.{term, terms, formula, change_by, consequent, effect};

use crate::task_table::TaskTable;
use fault::{Cause, Fault, Layer};
use table::{Head, Kind, Place};

// A table, read at a place around which so much is known: how many variables an entry may name, how many quantifiers stand around it, and
// where its formula or effect begins.
#[derive(Clone, Copy)]
pub(crate) struct Reader<'t, 'a> {
    table: &'t TaskTable<'a>,
    variables: u32,
    quantifiers: u32,
    start: usize,
    ghost few: { variables ≤ quantifiers + 4 },
    ghost shallow: { quantifiers ≤ 3 },
}

impl<'t, 'a> Reader<'t, 'a> {
    ghost use Rattle.adl.specs.Views.{table as table_in, table_read, around as around_in, answer, heading};

    // At the beginning of a formula or an effect at place `at`.
    #[inline(always)]
    pub(crate) fn outermost(table: &'t TaskTable<'a>, params: u32, at: usize) -> Reader<'t, 'a>
        requires { params ≤ 4 }
        ensures table { table_read result ≡ table_in table.now }
        ensures around { around_in result ≡ outermost_at params at }
    {
        Reader {
            table,
            variables: params,
            quantifiers: 0,
            start: at,
        }
    }

    // Inside one more quantifier.
    fn deeper(&self) -> Reader<'t, 'a>
        requires { self.now.quantifiers < 3 }
        ensures table { table_read result ≡ table_read self.now }
        ensures around { around_in result ≡ inside (around_in self.now) }
    {
        Reader {
            table: self.table,
            variables: self.variables + 1,
            quantifiers: self.quantifiers + 1,
            start: self.start,
        }
    }

    // Whether a formula or effect is not too long, and its quantifiers not nested too deep.
    fn is_within_bounds(&self, at: usize, head: Head) -> bool
        ensures { result ≡ within_bounds (around_in self.now) at (coded head) }
    {
        match head.kind {
            Kind::Forall | Kind::Exists => at.saturating_sub(self.start) < 256
                && self.quantifiers < 3,
            _ => at.saturating_sub(self.start) < 256,
        }
    }

    // Whether the operand is in the range of its kind.
    fn is_in_range(&self, head: Head) -> bool
        ensures { result ≡ in_range (table_read self.now) (around_in self.now) (coded head) }
    {
        let (sizes, operand) = (self.table.sizes, head.operand);
        match head.kind {
            Kind::Atom => operand < sizes.predicates,
            Kind::And | Kind::Or => true,
            Kind::Forall | Kind::Exists | Kind::Parameter => operand < sizes.types,
            Kind::Object => operand < sizes.objects,
            Kind::Variable => operand < self.variables,
            Kind::TypeSet => (operand as u64) < 1u64 << sizes.objects,
            Kind::Predicate => operand < 4,
            Kind::Operator => operand < 5,
            _ => operand == 0,
        }
    }

    // The entry at place `at`, or its first fault. Inlined with the three around it, so that a row of terms or of facts is one loop.
    #[inline(always)]
    pub(crate) fn head_at(&self, place: Place, at: usize) -> Result<Head, Fault>
        ensures same { all_coded result ≡ heading (head (table_read self.now) place (around_in self.now) at) }
        ensures inside { OnOk result (at < self.now.table.now.sizes.entries) }
        ensures shallow { IfOk result (λ h. is_quantifier (code_of h.kind) ≡ true → self.now.quantifiers < 3) }
    {
        let head = self.table.entries.head_at(Layer::Task, place, at)?;
        if !self.is_within_bounds(at, head) {
            return Err(Fault::new(Cause::TooLongOrDeep, Layer::Task, at as u64));
        }
        if !self.is_in_range(head) {
            return Err(Fault::new(Cause::OperandOutOfRange, Layer::Task, at as u64));
        }
        Ok(head)
    }

    #[inline(always)]
    fn check_term(&self, at: usize) -> Result<usize, Fault>
        ensures { result ≡ answer (term (table_read self.now) (around_in self.now) at) }
    {
        let _ = self.head_at(Place::Term, at)?;
        Ok(at + 1)
    }

    // The terms of a predicate, from place `at`.
    #[inline(always)]
    pub(crate) fn check_terms(&self, predicate: u32, at: usize) -> Result<usize, Fault>
        ensures { result ≡ answer (terms (table_read self.now) (around_in self.now) predicate at) }
    {
        let mut next = at;
        for _ in 0..self.table.arity(predicate) {
            next = self.check_term(next)?;
        }
        Ok(next)
    }

    // The formula at place `at`, whose parts nest at most `room` deep.
    pub(crate) fn check_formula(&self, room: u32, at: usize) -> Result<usize, Fault>
        ensures { result ≡ answer (formula (table_read self.now) room (around_in self.now) at) }
    {
        let head = self.head_at(Place::Formula, at)?;
        if room == 0 {
            return Err(Fault::new(Cause::TooLongOrDeep, Layer::Task, at as u64));
        }
        let mut next = at + 1;
        match head.kind {
            Kind::Atom => self.check_terms(head.operand, next),
            Kind::Equal => {
                let second = self.check_term(next)?;
                self.check_term(second)
            }
            Kind::Not => self.check_formula(room - 1, next),
            Kind::And | Kind::Or => {
                for _ in 0..head.operand {
                    next = self.check_formula(room - 1, next)?;
                }
                Ok(next)
            }
            Kind::Imply => {
                let second = self.check_formula(room - 1, next)?;
                self.check_formula(room - 1, second)
            }
            Kind::Forall | Kind::Exists => self.deeper().check_formula(room - 1, next),
            _ => Ok(next),
        }
    }

    // What follows the first entry of an atom that is added or deleted.
    fn check_change(&self, head: Head, next: usize) -> Result<usize, Fault>
        requires { next ≤ self.now.table.now.sizes.entries }
        ensures { result ≡ answer (change_by (table_read self.now) (around_in self.now) (coded head) next) }
    {
        match head.kind {
            Kind::Not => {
                let negated = self.head_at(Place::Negated, next)?;
                self.check_terms(negated.operand, next + 1)
            }
            _ => self.check_terms(head.operand, next),
        }
    }

    // The consequent of a WHEN at place `at`.
    fn check_consequent(&self, room: u32, at: usize) -> Result<usize, Fault>
        ensures { result ≡ answer (consequent (table_read self.now) room (around_in self.now) at) }
    {
        let head = self.head_at(Place::Consequent, at)?;
        if room == 0 {
            return Err(Fault::new(Cause::TooLongOrDeep, Layer::Task, at as u64));
        }
        let mut next = at + 1;
        match head.kind {
            Kind::And => {
                for _ in 0..head.operand {
                    next = self.check_consequent(room - 1, next)?;
                }
                Ok(next)
            }
            _ => self.check_change(head, next),
        }
    }

    // The effect at place `at`. Consequents are read by a function of their own: their grammar is a smaller one, of other trees.
    pub(crate) fn check_effect(&self, room: u32, at: usize) -> Result<usize, Fault>
        ensures { result ≡ answer (effect (table_read self.now) room (around_in self.now) at) }
    {
        let head = self.head_at(Place::Effect, at)?;
        if room == 0 {
            return Err(Fault::new(Cause::TooLongOrDeep, Layer::Task, at as u64));
        }
        let mut next = at + 1;
        match head.kind {
            Kind::And => {
                for _ in 0..head.operand {
                    next = self.check_effect(room - 1, next)?;
                }
                Ok(next)
            }
            Kind::Forall => self.deeper().check_effect(room - 1, next),
            Kind::When => {
                let consequent = self.check_formula(256, next)?;
                self.check_consequent(256, consequent)
            }
            _ => self.check_change(head, next),
        }
    }
}
