// A begun run of a task: a token beside the store. Only `begin` makes one, and only `end` takes it away.
use adl::Task;

pub struct TaskRun<'t, 'a> {
    task: &'t Task<'a>,
    steps: u32,
}

pub mod calls;
