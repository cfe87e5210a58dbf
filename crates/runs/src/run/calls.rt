// The calls of a task's run.
ghost use Rattle.std.specs.Prelude.{◌≡◌, ℕ, IfOk};
ghost use Rattle.adl.specs.Held.{tree_of};
ghost use Rattle.protocol.specs.Names.{name_of};
ghost use Rattle.protocol.specs.Machines.{Begun, begun, Judged, Performed};
ghost use Rattle.protocol.specs.TaskCalls.{task_begin, task_holds, task_goal, task_perform, task_machine};

use super::TaskRun;
use crate::facts::put_facts;
use crate::fitting_name::Fitting;
use crate::goal::judge_goal;
use adl::Task;
use fault::{Cause, Fault, Layer};
use protocol::{Name, Run};
use store::{Store, copy, has_places, room_for};

// A book's run has calls of its own: this one tests whether a name fits before it fills the image, and asks other things of its subject.
impl<'t, 'a> Run for TaskRun<'t, 'a> {
    type Of = &'t Task<'a>;

    ghost machine = { λ task. task_machine (tree_of task.now) };

    ghost of = { λ run. run.task };

    ghost steps = { λ run. run.steps };

    // Empties the store, puts the facts, and gives a run with no step taken.
    fn begin<S: Store>(task: &'t Task<'a>, store: &mut S) -> Result<TaskRun<'t, 'a>, Fault>
        ensures size { S.extent store.new ≡ S.extent store.old }
        ensures subject { IfOk result (λ run. run.task ≡ task.entry) }
        ensures begun { record { set = S.facts store.new; answer = begun (λ (run : TaskRun). run.steps) result } ≡ task_begin (tree_of task.now) (S.extent store.old) (S.facts store.old) }
    {
        has_places(store, task.atoms)?;
        store.empty();
        put_facts(task, store);
        Ok(TaskRun { task, steps: 0 })
    }

    fn perform<S: Store>(
        &mut self,
        store: &mut S,
        image: &mut [u8],
        name: Name,
    ) -> Result<(), Fault>
        ensures subject { self.new.task ≡ self.old.task }
        ensures size { S.extent store.new ≡ S.extent store.old }
        ensures performed { record { steps = self.new.steps; set = S.facts store.new; image = image.new; answer = result }
            ≡ task_perform (tree_of self.old.task.now) (S.extent store.old) self.old.steps (S.facts store.old) image.old (name_of name.entry) }
    {
        let steps = self.steps;
        if steps >= 65535 {
            return Err(Fault::new(Cause::StepLimit, Layer::Run, 65535));
        }
        let task = self.task;
        room_for(store, image, task.atoms)?;
        let Some(fitting) = Fitting::of(task, name) else {
            return Err(Fault::new(Cause::NameDoesNotFit, Layer::Run, 0));
        };
        copy(store, image, task.atoms)?;
        if !fitting.perform(image, store) {
            return Err(Fault::new(Cause::NotApplicable, Layer::Run, steps as u64));
        }
        self.steps = steps + 1;
        Ok(())
    }

    fn holds<S: Store>(&self, store: &S, atom: u32) -> Result<bool, Fault>
        ensures { result ≡ task_holds (tree_of self.now.task.now) (S.extent store.now) (S.facts store.now) atom }
    {
        let atoms = self.task.atoms;
        has_places(store, atoms)?;
        if atom >= atoms {
            return Err(Fault::new(Cause::NoSuchAtom, Layer::Run, atom as u64));
        }
        store.has(atom)
    }

    fn goal<S: Store>(&self, store: &S, image: &mut [u8]) -> Result<bool, Fault>
        ensures { record { image = image.new; answer = result } ≡ task_goal (tree_of self.now.task.now) (S.extent store.now) (S.facts store.now) image.old }
    {
        copy(store, image, self.task.atoms)?;
        Ok(judge_goal(self.task, image))
    }

    fn end(self) -> u32
        ensures { result ≡ self.entry.steps }
    {
        let TaskRun { task: _, steps } = self;
        steps
    }
}
