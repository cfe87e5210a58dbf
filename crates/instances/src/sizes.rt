// The sizes of the tasks that are built.
use adl::Sizes;
use trials::Rows;

// The sizes of a task with one type and one operator whose rows these are.
pub(crate) fn one_operator(rows: &Rows, objects: u32, predicates: u32, facts: u32) -> Sizes {
    Sizes {
        objects,
        types: 1,
        predicates,
        facts,
        operators: 1,
        entries: rows.count(),
    }
}
