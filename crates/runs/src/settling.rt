// A sheet of objects beside what is settled of the atoms: where formulas and effects are simplified.
ghost use Rattle.std.specs.Prelude.{◌≡◌, ◌+◌, ◌<◌};
ghost use Rattle.model.specs.Meaning.{bind};
ghost use Rattle.runs.specs.Shown.{bound};

use crate::sheet::Sheet;
use crate::verdict::Verdict;

// Simplifying only reads it: an instance of a quantifier has a copy with one variable more.
#[derive(Drop)]
pub(crate) struct Settling<'s, 'a> {
    pub(crate) sheet: Sheet<'s, 'a>,
    pub(crate) verdicts: &'s [Verdict],
}

impl<'s, 'a> Settling<'s, 'a> {
    // The same with one variable more, bound to this object.
    pub(crate) fn with(&self, object: u32) -> Settling<'s, 'a>
        requires room { self.now.sheet.depth < 7 }
        requires known { object < self.now.sheet.task.now.table.sizes.objects }
        ensures task { result.sheet.task.now ≡ self.now.sheet.task.now }
        ensures verdicts { result.verdicts.now ≡ self.now.verdicts.now }
        ensures depth { result.sheet.depth ≡ self.now.sheet.depth + 1 }
        ensures bound { bound result.sheet ≡ bind (bound self.now.sheet) object }
    {
        let depth = self.sheet.depth;
        let mut objects = self.sheet.objects;
        objects[depth] = object;
        let sheet = Sheet {
            task: self.sheet.task,
            objects,
            depth: depth + 1,
        };
        Settling {
            sheet,
            verdicts: self.verdicts,
        }
    }
}
