// The theorem that the runs of a task and of its book agree, over the definitions by which the calls of both are contracted.
#![tactic(auto)]

ghost use Rattle.agreement.specs.Agreement.{TaskAndBookAgree};

pub fn task_and_book_agree()
    ensures { TaskAndBookAgree }
{}
