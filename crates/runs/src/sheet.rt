// The sheet of objects that variables stand for, over an image of the state, and a guard that binds one more of them for a while.
ghost use Rattle.std.specs.Prelude.{◌≡◌, ◌+◌, ◌<◌, ◌≤◌, length, take, slice_index, slice_set};
ghost use Rattle.model.specs.Forming.{Within};
ghost use Rattle.runs.specs.Objects.{within_prop};

use adl::Task;

// A task, and an object for each bound variable: at most four parameters and three quantifiers. An array and a number of places, as nothing here
// allocates.
#[derive(Drop)]
pub(crate) struct Sheet<'s, 'a> {
    pub(crate) task: &'s Task<'a>,
    pub(crate) objects: [u32; 7],
    pub(crate) depth: usize,
    ghost room: { depth ≤ 7 },
    ghost within: { Within task.now.table.sizes.objects (take depth objects) } by { within_prop task.now.table.sizes.objects (take depth objects) },
}

impl<'s, 'a> Sheet<'s, 'a> {
    ghost use Rattle.runs.specs.Shown.{bound};

    // The parameters stand for these objects, and no other variable is bound.
    pub(crate) fn of(task: &'s Task<'a>, parameters: &[u32]) -> Sheet<'s, 'a>
        requires few { length parameters.now ≤ 7 }
        requires objects { Within task.now.table.sizes.objects parameters.now }
        ensures task { result.task.now ≡ task.now }
        ensures depth { result.depth ≡ length parameters.now }
        ensures bound { bound result ≡ parameters.now }
    {
        let depth = parameters.len();
        let mut objects = [0; 7];
        objects[..depth].copy_from_slice(parameters);
        Sheet {
            task,
            objects,
            depth,
        }
    }
}

// A sheet, and an image of the state. Functions that bind more variables for a while each say that the scene is as it was.
#[derive(Drop)]
pub(crate) struct Scene<'s, 'a> {
    pub(crate) sheet: Sheet<'s, 'a>,
    pub(crate) image: &'s [u8],
}

impl Scene<'_, '_> {
    ghost use Rattle.runs.specs.Shown.{OneMore};

    // Binds one variable more to this object, and tells what its slot held before. That a slot is free is asked here and by the two that bind: it holds of
    // no other scene.
    pub(crate) fn bind(&mut self, object: u32) -> u32
        requires room { self.old.sheet.depth < 7 }
        requires known { object < self.old.sheet.task.now.table.sizes.objects }
        ensures before { result ≡ slice_index self.old.sheet.objects self.old.sheet.depth }
        ensures bound { OneMore self.old object self.new }
    {
        let slot = self.sheet.depth;
        let before = self.sheet.objects[slot];
        self.sheet.objects[slot] = object;
        self.sheet.depth = slot + 1;
        before
    }
}

// A scene with one variable more for a while: its slot gets back what it held before.
pub(crate) struct Bound<'b, 's, 'a> {
    pub(crate) scene: &'b mut Scene<'s, 'a>,
    pub(crate) before: u32,
}

impl Drop for Bound<'_, '_, '_> {
    ghost use Rattle.runs.specs.Shown.{OneLess};

    fn drop(self)
        requires { 0 < self.scene.now.sheet.depth }
        ensures { OneLess self.entry.scene.now self.entry.before self.exit.0.now }
    {
        let Bound { scene, before } = self;
        let slot = scene.sheet.depth - 1;
        scene.sheet.depth = slot;
        scene.sheet.objects[slot] = before;
    }
}
