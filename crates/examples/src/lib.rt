// What contracts cite, by example: a case where it holds, and one where it does not.
#![tactic(auto)]

ghost use Rattle.examples.specs.Refusals.{RefusalsByExample};
ghost use Rattle.examples.specs.Entries.{EntriesByExample};
ghost use Rattle.examples.specs.RisingLists.{RisingListsByExample};
ghost use Rattle.examples.specs.Stores.{StoresByExample};
ghost use Rattle.examples.specs.Loading.{LoadingByExample, PartsByExample, TasksInNoTable};
ghost use Rattle.examples.specs.Opening.{OpeningByExample, FindingByExample};
ghost use Rattle.examples.specs.Settling.{ClashesByExample, WritingByExample};
ghost use Rattle.examples.specs.Calling.{AnswersByExample, CallsByExample};
ghost use Rattle.examples.specs.Instantiating.{InstantiatingByExample};
ghost use Rattle.examples.specs.Files.{FilesByExample};
ghost use Rattle.examples.specs.Agreeing.{AgreeingByExample};
ghost use Rattle.examples.specs.Lamps.{LampsByExample};

// The texts of refusals and of answers, and what they are in plain numbers.
pub fn examples_of_refusals()
    ensures { RefusalsByExample }
{}

// Kinds and places, and entries as they are read.
pub fn examples_of_entries()
    ensures { EntriesByExample }
{}

// Lists that rise, and what is done to them.
pub fn examples_of_rising_lists()
    ensures { RisingListsByExample }
{}

// Sets of facts, packed and listed, and images of them.
pub fn examples_of_stores()
    ensures { StoresByExample }
{}

// Tables of tasks: what is refused, what loads, and what is in no table.
pub fn examples_of_loading()
    ensures loads { LoadingByExample }
    ensures parts { PartsByExample }
    ensures no_table { TasksInNoTable }
{}

// Tables of books: what is refused, what opens, and what is found.
pub fn examples_of_opening()
    ensures opens { OpeningByExample }
    ensures finds { FindingByExample }
{}

// What is settled of atoms: literals that clash with it, and what is written by it.
pub fn examples_of_settling()
    ensures clashes { ClashesByExample }
    ensures writes { WritingByExample }
{}

// Calls of a run where something is amiss.
pub fn examples_of_calls()
    ensures answers { AnswersByExample }
    ensures calls { CallsByExample }
{}

// Instantiating with too few places, and with enough.
pub fn examples_of_instantiating()
    ensures { InstantiatingByExample }
{}

// Files, and what is refused of them.
pub fn examples_of_files()
    ensures { FilesByExample }
{}

// The agreement of both runs, and what it excludes.
pub fn examples_of_agreeing()
    ensures { AgreeingByExample }
{}

// A task with the kinds that no worked task has, through all calls.
pub fn examples_of_all_kinds()
    ensures { LampsByExample }
{}
