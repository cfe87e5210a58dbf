// Playing a list of calls.
ghost use Rattle.std.specs.Prelude.{◌≡◌, ℕ, ◌<◌, ◌≤◌, List, length, Some, IfSome, IsOk, IsErr, OnOk};
ghost use Rattle.std.specs.Option.{option_map};
ghost use Rattle.protocol.specs.Machines.{Turn, unbegun, running, turn_from, Played};

use crate::too_few_places::TooFewPlaces;
use protocol::{Answer, Call, Run};
use store::Store;

// Subject, run and store stay side by side: a run is used up by the calls that end it, and a struct would have no run in between.

// A begin during a run: where it is accepted the old run is ended, where it is refused the old one goes on.
fn begin_again<R: Run, S: Store>(subject: R::Of, run: R, store: &mut S) -> (R, Answer)
    requires { R.of run ≡ subject }
    ensures size { S.extent store.new ≡ S.extent store.old }
    ensures subject { R.of result.0 ≡ subject }
    ensures turn { (im : List ℕ) → record { steps = Some (R.steps result.0); set = S.facts store.new; image = im; answer = result.1 }
        ≡ running (R.machine subject (S.extent store.old)) (R.steps run) (S.facts store.old) im Call.Begin }
{
    match R::begin(subject, store) {
        Ok(begun) => {
            let _ = run.end();
            (begun, Answer::Done)
        }
        Err(fault) => (run, Answer::Refused(fault)),
    }
}

// A call during a run.
fn call_running<R: Run, S: Store>(
    subject: R::Of,
    mut run: R,
    store: &mut S,
    image: &mut [u8],
    call: Call,
) -> (Option<R>, Answer)
    requires { R.of run ≡ subject }
    ensures size { S.extent store.new ≡ S.extent store.old }
    ensures subject { IfSome result.0 (λ r. R.of r ≡ subject) }
    ensures turn { record { steps = option_map R.steps result.0; set = S.facts store.new; image = image.new; answer = result.1 }
        ≡ running (R.machine subject (S.extent store.old)) (R.steps run) (S.facts store.old) image.old call.entry }
{
    match call {
        Call::Begin => {
            let (run, answer) = begin_again(subject, run, store);
            (Some(run), answer)
        }
        Call::Perform(name) => {
            let answer = Answer::from(run.perform(store, image, name));
            (Some(run), answer)
        }
        Call::Holds(atom) => {
            let answer = Answer::from(run.holds(store, atom));
            (Some(run), answer)
        }
        Call::Goal => {
            let answer = Answer::from(run.goal(store, image));
            (Some(run), answer)
        }
        Call::End => (None, Answer::Count(run.end())),
    }
}

// A call, whether or not there is a run.
fn call_any<R: Run, S: Store>(
    subject: R::Of,
    run: Option<R>,
    store: &mut S,
    image: &mut [u8],
    call: Call,
) -> (Option<R>, Answer)
    requires { IfSome run (λ r. R.of r ≡ subject) }
    ensures size { S.extent store.new ≡ S.extent store.old }
    ensures subject { IfSome result.0 (λ r. R.of r ≡ subject) }
    ensures turn { record { steps = option_map R.steps result.0; set = S.facts store.new; image = image.new; answer = result.1 }
        ≡ turn_from (R.machine subject (S.extent store.old)) (option_map R.steps run) (S.facts store.old) image.old call.entry }
{
    match run {
        Some(run) => call_running(subject, run, store, image, call),
        None => match call {
            Call::Begin => match R::begin(subject, store) {
                Ok(run) => (Some(run), Answer::Done),
                Err(fault) => (None, Answer::Refused(fault)),
            },
            _ => (None, Answer::NoRun),
        },
    }
}

// Ends a run that the calls have not ended.
fn leave<R: Run>(run: Option<R>) {
    if let Some(run) = run {
        let _ = run.end();
    }
}

// Plays the calls one after the other on a task or a book, over a store and an image, and writes what each answers; does nothing
// where there are fewer places for answers than calls.
pub fn play<R: Run, S: Store>(
    subject: R::Of,
    store: &mut S,
    image: &mut [u8],
    calls: &[Call],
    answers: &mut [Answer],
) -> Result<(), TooFewPlaces>
    ensures size { S.extent store.new ≡ S.extent store.old }
    ensures short { length answers.old < length calls.now → IsErr result × (answers.new ≡ answers.old) × (image.new ≡ image.old) × (store.new ≡ store.old) }
    ensures long { length calls.now ≤ length answers.old → IsOk result }
    ensures played { OnOk result (Played (R.machine subject (S.extent store.old)) (unbegun (S.facts store.old) image.old) calls.now answers.old
        (S.facts store.new) image.new answers.new) }
{
    if answers.len() < calls.len() {
        return Err(TooFewPlaces);
    }
    let mut run: Option<R> = None;
    // by index: after a zip with iter_mut the proof would not know the answers written
    for (i, call) in calls.iter().enumerate() {
        (run, answers[i]) = call_any(subject, run, store, image, *call);
    }
    leave(run);
    Ok(())
}
