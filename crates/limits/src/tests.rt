ghost use Rattle.std.specs.Prelude.{◌≤◌, ◌<◌};
ghost use Rattle.std.proofs.Common.{rules};

use adl::{Sizes, Task};
use fault::{Cause, Fault, Layer};
use std::array;
use std::cmp::Ordering;
use store::{Bits, Full, Key, ListStore, Rising, Store};
use table::Kind;
use trials::Arrays;

// What loading arrays answers.
fn load<'a>(sizes: Sizes, kinds: &'a [u8], operands: &'a [u32]) -> Result<(), Fault> {
    let mut task = Task::new();
    task.load(sizes, kinds, operands)
}

// What loading a table answers; its arrays have to fit in memory.
fn answer<const N: usize>(sizes: Sizes, table: &[(Kind, u32); N]) -> Result<(), Fault>
    requires { N ≤ 257 }
{
    let arrays = Arrays::of(table);
    load(sizes, &arrays.kinds, &arrays.operands)
}

// How many atoms a task has that loads; none where it does not.
fn atoms_of<const N: usize>(sizes: Sizes, table: &[(Kind, u32); N]) -> u32
    requires { N ≤ 257 }
{
    let arrays = Arrays::of(table);
    let mut task = Task::new();
    if task.load(sizes, &arrays.kinds, &arrays.operands).is_err() {
        return 0;
    }
    task.atoms()
}

fn refused(cause: Cause, place: u64) -> Result<(), Fault> {
    Err(Fault::new(cause, Layer::Task, place))
}

// Sizes of a task with one entry and so many objects.
fn one_entry(objects: u32) -> Sizes {
    Sizes {
        objects,
        types: 0,
        predicates: 0,
        facts: 0,
        operators: 0,
        entries: 1,
    }
}

// How many numbers a driven store holds.
const FACTS: usize = 24;

// Puts that bring in, bring in again, take out, take out what is not there, and are refused.
const PUTS: [(u32, bool); 18] = [
    (3, true),
    (0, true),
    (23, true),
    (7, true),
    (8, true),
    (3, true),
    (7, false),
    (9, false),
    (24, true),
    (15, true),
    (16, true),
    (0, false),
    (0, true),
    (65536, false),
    (22, true),
    (22, false),
    (1, true),
    (23, false),
];

// What a store holds after the puts, and how many of them it refused.
fn driven<S: Store>(store: &mut S) -> ([bool; FACTS], usize) {
    let refused = PUTS
        .iter()
        .filter(|(k, present)| store.put(*k, *present).is_err())
        .count();
    let held = array::from_fn(|k| store.has(k as u32).unwrap_or(false));
    (held, refused)
}

// 32 objects load, and 33 are a size outside its limits.
#[test]
fn objects(rt: HostRuntime) {
    let goal = [(Kind::True, 0)];
    assert_eq!(rt; answer(one_entry(32), &goal), Ok(()));
    assert_eq!(rt;
        answer(one_entry(33), &goal),
        refused(Cause::SizeOutOfLimits, 0)
    );
}

// Two predicates of arity three over 32 objects have 65,536 atoms; a predicate without arguments makes one atom more, which is too many.
#[test]
fn atoms(rt: HostRuntime) {
    let (triples, single, goal) = ((Kind::Predicate, 3), (Kind::Predicate, 0), (Kind::True, 0));
    let most = Sizes {
        predicates: 2,
        entries: 3,
        ..one_entry(32)
    };
    assert_eq!(rt; answer(most, &[triples, triples, goal]), Ok(()));
    assert_eq!(rt; atoms_of(most, &[triples, triples, goal]), 65_536);
    let more = Sizes {
        predicates: 3,
        entries: 4,
        ..one_entry(32)
    };
    assert_eq!(rt;
        answer(more, &[triples, triples, single, goal]),
        refused(Cause::TooManyAtoms, 2)
    );
}

// An AND of 255 TRUEs loads; that of 256 has a 257th entry.
#[test]
fn entries_of_a_formula(rt: HostRuntime) {
    let mut table = [(Kind::True, 0); 257];
    table[0] = (Kind::And, 255);
    let most = Sizes {
        entries: 256,
        ..one_entry(1)
    };
    assert_eq!(rt; answer(most, &table), Ok(()));
    table[0] = (Kind::And, 256);
    let more = Sizes {
        entries: 257,
        ..one_entry(1)
    };
    assert_eq!(rt; answer(more, &table), refused(Cause::TooLongOrDeep, 256));
}

// The numbers of the refusals at the limits.
#[test]
fn numbers(rt: HostRuntime) {
    assert_eq!(rt; u8::from(Cause::SizeOutOfLimits), 1);
    assert_eq!(rt; u8::from(Cause::TooLongOrDeep), 6);
    assert_eq!(rt; u8::from(Cause::TooManyAtoms), 7);
}

// Each refusal of loading once.
#[test]
fn refusals(rt: HostRuntime) {
    let two = Sizes {
        entries: 2,
        ..one_entry(1)
    };
    let typed = Sizes {
        types: 1,
        entries: 2,
        ..one_entry(1)
    };
    let not_true = Arrays::of(&[(Kind::Not, 0), (Kind::True, 0)]);
    let not = Arrays::of(&[(Kind::Not, 0)]);
    assert_eq!(rt;
        answer(one_entry(0), &[(Kind::True, 0)]),
        refused(Cause::SizeOutOfLimits, 0),
        "no objects"
    );
    assert_eq!(rt;
        load(two, &not.kinds, &not_true.operands),
        refused(Cause::ArrayTooShort, 1),
        "kinds end early"
    );
    assert_eq!(rt;
        load(two, &not_true.kinds, &not.operands),
        refused(Cause::ArrayTooShort, 1),
        "operands end early"
    );
    assert_eq!(rt;
        answer(one_entry(1), &[(Kind::Object, 0)]),
        refused(Cause::KindNotPermitted, 0),
        "a term is no formula"
    );
    assert_eq!(rt;
        answer(two, &[(Kind::Imply, 0), (Kind::True, 0)]),
        refused(Cause::EntriesMismatch, 2),
        "IMPLY lacks a part"
    );
    assert_eq!(rt;
        answer(two, &[(Kind::True, 0), (Kind::True, 0)]),
        refused(Cause::EntriesMismatch, 1),
        "an entry is left over"
    );
    assert_eq!(rt;
        answer(one_entry(1), &[(Kind::True, 1)]),
        refused(Cause::OperandOutOfRange, 0),
        "TRUE has operand 0"
    );
    assert_eq!(rt;
        answer(typed, &[(Kind::TypeSet, 2), (Kind::True, 0)]),
        refused(Cause::OperandOutOfRange, 0),
        "a bit for no object"
    );
}

// The fourth quantifier inside one another is too deep.
#[test]
fn quantifiers(rt: HostRuntime) {
    let (ty, goal) = ((Kind::TypeSet, 1), (Kind::True, 0));
    let (forall, exists) = ((Kind::Forall, 0), (Kind::Exists, 0));
    let three = Sizes {
        types: 1,
        entries: 5,
        ..one_entry(1)
    };
    assert_eq!(rt; answer(three, &[ty, forall, exists, forall, goal]), Ok(()));
    let four = Sizes {
        types: 1,
        entries: 6,
        ..one_entry(1)
    };
    assert_eq!(rt;
        answer(four, &[ty, forall, exists, forall, exists, goal]),
        refused(Cause::TooLongOrDeep, 4)
    );
}

// Packed bits and the rising list hold the same after the same puts: 0, 1, 3, 8, 15 and 16; two puts are refused.
#[test]
fn both_stores(rt: HostRuntime) {
    let mut bytes = [0; 3];
    let mut bits = Bits::over(&mut bytes);
    let mut slots = [7; 24];
    let mut list = ListStore::over(&mut slots);
    let held = array::from_fn(|k| [0, 1, 3, 8, 15, 16].contains(&k));
    assert_eq!(rt; driven(&mut bits), (held, 2));
    assert_eq!(rt; driven(&mut list), (held, 2));
}

// A number as a key whose order is its own, the larger one first: its type has no order besides.
#[derive(Clone, Copy)]
struct Falling(u32);

impl Key for Falling {
    ghost before = { λ x y. y.0 < x.0 };

    ghost never = { Prim.search rules };

    ghost chain = { Prim.search rules };

    fn order(&self, other: &Falling) -> Ordering {
        other.0.cmp(&self.0)
    }
}

// The number at a place of a list of such keys.
fn number_at(list: &Rising<Falling>, place: usize) -> Option<u32> {
    match list.at(place) {
        Some(key) => Some(key.0),
        None => None,
    }
}

// 5, 2 and 9 stand as 9, 5, 2; a fourth key finds no place, and 5 is at place 1.
#[test]
fn keys_with_an_order_of_their_own(rt: HostRuntime) {
    let mut slots = [Falling(0); 3];
    let mut list = Rising::over(&mut slots);
    assert_eq!(rt; list.insert(Falling(5)), Ok(true));
    assert_eq!(rt; list.insert(Falling(2)), Ok(true));
    assert_eq!(rt; list.insert(Falling(9)), Ok(true));
    assert_eq!(rt; list.insert(Falling(9)), Ok(false));
    assert_eq!(rt; list.insert(Falling(7)), Err(Full));
    assert_eq!(rt; number_at(&list, 0), Some(9));
    assert_eq!(rt; number_at(&list, 2), Some(2));
    assert_eq!(rt; list.find(&Falling(5)), Ok(1));
    assert_eq!(rt; list.find(&Falling(7)), Err(1));
    assert_eq!(rt; list.remove(&Falling(9)), true);
    assert_eq!(rt; list.find(&Falling(5)), Ok(0));
}
