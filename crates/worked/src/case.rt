// The worked tasks.
ghost use Rattle.model.specs.Lists.{In};

// Each is named by what it shows.
#[derive(Clone, Copy, PartialEq, Eq, Debug)]
pub enum Case {
    // of two cells the first can be painted, as long as none is
    CellPainted,
    // one object and the goal TRUE, with nothing else
    GoalTrue,
    // a quantifier over a type without objects
    ForallOfNone,
    ExistsOfNone,
    // a junction without parts
    OrOfNothing,
    AndOfNothing,
    // the goal is NOT of NOT of an atom that can change
    NotOfNot,
    // an operator takes two objects, and is handed one of them twice
    ObjectTwice,
    // an action deletes and adds one atom
    DeletedAndAdded,
}

impl Case {
    // Every one of them.
    pub fn all() -> [Case; 9]
        ensures { (case : Case) → In case result }
    {
        [
            Case::CellPainted,
            Case::GoalTrue,
            Case::ForallOfNone,
            Case::ExistsOfNone,
            Case::OrOfNothing,
            Case::AndOfNothing,
            Case::NotOfNot,
            Case::ObjectTwice,
            Case::DeletedAndAdded,
        ]
    }
}
