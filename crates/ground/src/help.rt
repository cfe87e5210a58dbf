// What the program says of itself.

pub(crate) const HELP: &str = "\
ground: turns the file of a planning task into the file of its book of ground actions

    ground < TASK > BOOK

TASK  six sizes (objects, types, predicates, facts, operators, entries), then the kind of each entry in a byte, then the operand of each entry
BOOK  five sizes (atoms, relevant atoms, atoms always true, actions, entries), then the same

Sizes and operands have four bytes each, least first. A file has at most 65,536 bytes; what comes after them is not read. Each array of the work has 8,192 places.

The book is written to standard output, and the program ends with status 0. A task that is refused gives one line in its place, as
    refused 5 task 17
with the number of the refusal, the layer in which it arose and the place, and status 1. docs/FILES.md has the files, docs/REFUSALS.md the numbers.
";
