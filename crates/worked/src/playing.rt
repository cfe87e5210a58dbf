// The calls that are made on each worked task and on its book.
ghost use Rattle.std.specs.Prelude.{◌≡◌, map};
ghost use Rattle.agreement.specs.Agreement.{call_of};
ghost use Rattle.worked.specs.Calls.{calls};

use crate::case::Case;
use protocol::{Call, Name};

const CELL_PAINTED: &[Call] = &[
    Call::Begin,
    Call::Perform(Name {
        operator: 0,
        objects: &[1],
    }),
    Call::Perform(Name {
        operator: 0,
        objects: &[2],
    }),
    Call::Goal,
    Call::Perform(Name {
        operator: 0,
        objects: &[0],
    }),
    Call::Goal,
    Call::Holds(2),
    Call::Perform(Name {
        operator: 0,
        objects: &[0],
    }),
    Call::End,
];

const NOT_OF_NOT: &[Call] = &[
    Call::Begin,
    Call::Goal,
    Call::Perform(Name {
        operator: 0,
        objects: &[],
    }),
    Call::Goal,
    Call::End,
];

const OBJECT_TWICE: &[Call] = &[
    Call::Begin,
    Call::Perform(Name {
        operator: 0,
        objects: &[1, 1],
    }),
    Call::Perform(Name {
        operator: 0,
        objects: &[0, 1],
    }),
    Call::Perform(Name {
        operator: 0,
        objects: &[1, 1],
    }),
    Call::Perform(Name {
        operator: 0,
        objects: &[1, 0],
    }),
    Call::End,
];

const DELETED_AND_ADDED: &[Call] = &[
    Call::Begin,
    Call::Holds(0),
    Call::Perform(Name {
        operator: 0,
        objects: &[],
    }),
    Call::Holds(0),
    Call::Perform(Name {
        operator: 0,
        objects: &[],
    }),
    Call::Holds(0),
    Call::End,
];

const GOAL_ALONE: &[Call] = &[Call::Begin, Call::Goal, Call::End];

impl Case {
    // The calls.
    pub fn calls(self) -> &'static [Call<'static>]
        ensures { map call_of result.now ≡ calls self }
    {
        match self {
            Case::CellPainted => CELL_PAINTED,
            Case::NotOfNot => NOT_OF_NOT,
            Case::ObjectTwice => OBJECT_TWICE,
            Case::DeletedAndAdded => DELETED_AND_ADDED,
            Case::GoalTrue
            | Case::ForallOfNone
            | Case::ExistsOfNone
            | Case::OrOfNothing
            | Case::AndOfNothing => GOAL_ALONE,
        }
    }
}
