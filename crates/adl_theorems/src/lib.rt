// Theorems on loading: each function's contract names one.
#![tactic(auto)]

ghost use Rattle.adl_theorems.specs.Theorems.{WhatIsWrittenLoads, WhatLoadsWasWritten, RecordsHoldWellFormedTasks, RecordsHoldTasksWithinLimits};

pub fn what_is_written_loads()
    ensures { WhatIsWrittenLoads }
{}

pub fn what_loads_was_written()
    ensures { WhatLoadsWasWritten }
{}

pub fn records_hold_well_formed_tasks()
    ensures { RecordsHoldWellFormedTasks }
{}

pub fn records_hold_tasks_within_limits()
    ensures { RecordsHoldTasksWithinLimits }
{}
