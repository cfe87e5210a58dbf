// The goal and the operators of a loaded task, by the places that the record keeps.
ghost use Rattle.std.specs.Prelude.{◌≡◌, ℕ, ◌<◌, ◌≤◌, [], if◌then◌else◌};
ghost use Rattle.model.specs.Meaning.{value, precondition_of, effect_of, literals_where};
ghost use Rattle.protocol.specs.Names.{name_of};
ghost use Rattle.protocol.specs.Shown.{shown};
ghost use Rattle.adl.specs.Held.{tree_of};
ghost use Rattle.protocol.specs.Steps.{put_step};

use crate::fitting_name::Fitting;
use crate::sheet::{Scene, Sheet};
use adl::Task;
use store::Store;

// The value of the goal in the image.
pub(crate) fn judge_goal(task: &Task, image: &[u8]) -> bool
    ensures { result ≡ value (tree_of task.now) (shown image.now) [] (tree_of task.now).goal }
{
    let sheet = Sheet::of(task, &[]);
    let mut scene = Scene { sheet, image };
    let (value, _) = scene.judge(task.goal_at);
    value
}

impl Fitting<'_, '_, '_> {
    // Judges the precondition in the image and, if it is true, takes the step; tells whether, since the caller alone knows the place that a refusal
    // names.
    #[tactic(auto, using(crate::proofs::Turns::objects_few, crate::proofs::Turns::begins_inside))]
    pub(crate) fn perform<S: Store>(&self, image: &[u8], store: &mut S) -> bool
        ensures size { S.extent store.new ≡ S.extent store.old }
        ensures judged { result ≡ value (tree_of self.now.task.now) (shown image.now) (name_of self.now.name).objects (precondition_of (tree_of self.now.task.now) (name_of self.now.name)) }
        ensures set { S.facts store.new ≡ (if result then put_step (S.extent store.old) (literals_where (value (tree_of self.now.task.now) (shown image.now)) (effect_of (tree_of self.now.task.now) (name_of self.now.name))) (S.facts store.old) else S.facts store.old) }
    {
        let Fitting { task, name } = *self;
        let operator = task.operators[name.operator as usize];
        let precondition = operator.start + 1 + name.objects.len();
        let sheet = Sheet::of(task, name.objects);
        let mut scene = Scene { sheet, image };
        scene.attempt(precondition, operator.effect, store)
    }
}
