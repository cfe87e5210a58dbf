// Theorems on opening books: each function's contract names one.
#![tactic(auto)]

ghost use Rattle.book_theorems.specs.Theorems.{WhatIsWrittenOpens, WhatOpensWasWritten, RecordsHoldWellFormedBooks};

pub fn what_is_written_opens()
    ensures { WhatIsWrittenOpens }
{}

pub fn what_opens_was_written()
    ensures { WhatOpensWasWritten }
{}

pub fn records_hold_well_formed_books()
    ensures { RecordsHoldWellFormedBooks }
{}
