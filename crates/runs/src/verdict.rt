// What is settled of an atom.
ghost use Rattle.std.specs.Prelude.{◌≡◌, false, slice_index_or};

#[derive(Clone, Copy, PartialEq, Eq, Debug)]
pub enum Verdict {
    // it is true in every state that a run can reach, or false in every one
    Always(bool),
    // it can change: the fact that stands for it in a book
    Fact(u32),
}

// The verdict of an atom: a number past the end is that of no atom, and always false.
pub fn verdict_of(verdicts: &[Verdict], atom: u32) -> Verdict
    ensures { result ≡ slice_index_or verdicts.now atom (Verdict.Always false) }
{
    verdicts
        .get(atom as usize)
        .copied()
        .unwrap_or(Verdict::Always(false))
}
