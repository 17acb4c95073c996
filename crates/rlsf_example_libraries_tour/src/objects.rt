//! A pool of objects.

ghost use Rattle.std.specs.Prelude.{◌≡◌, ◌↔◌, IfOk, IsErr, IsErrOf, None, nat_eq};
ghost use Rattle.std.specs.Map.{lookup};
ghost use Rattle.rlsf_example_libraries.specs.declared.objects.TakeError.TheVariants.{NoRoom};

use crate::answer::{Answer, Refusal};
use crate::draw;
use crate::error::TourError;
use crate::messages::text;
use rlsf::{Layout, Memory};
use rlsf_example_libraries::{Objects, TakeError, UnknownHandle};

/// A call of the script.
#[derive(Clone, Copy)]
enum Step {
    Take,
    Set(usize, &'static str),
    GiveBack(usize),
    Exchange(usize),
}

const SCRIPT: [Step; 9] = [
    Step::Take,
    Step::Take,
    Step::Set(1, "a name"),
    Step::Take,
    Step::GiveBack(0),
    Step::Take,
    Step::GiveBack(0),
    Step::Set(1, "an"),
    Step::Exchange(1),
];

/// Takes objects, writes into one, returns one, and exchanges one for another.
pub(crate) fn show(rt: &(impl Print + AllocGlobal)) -> Result<(), TourError> {
    let object = Layout::from_size_align(40, 32)?;
    let memory = Memory::new(rt.alloc(), 8192, 288)?;
    let mut pool = Objects::new(rt.alloc(), memory, object);
    run_script(rt, &mut pool)
}

fn run_script(rt: &(impl Print + AllocGlobal), pool: &mut Objects) -> Result<(), TourError> {
    rt.println("Objects of 40 bytes at multiples of 32, in 288 bytes")?;
    for step in &SCRIPT {
        run_step(rt, pool, *step)?;
    }
    Ok(())
}

fn run_step(
    rt: &(impl Print + AllocGlobal),
    pool: &mut Objects,
    step: Step,
) -> Result<(), TourError> {
    match step {
        Step::Take => take(rt, pool),
        Step::Set(handle, name) => set(rt, pool, handle, name),
        Step::GiveBack(handle) => give_back(rt, pool, handle),
        Step::Exchange(handle) => show_exchange(rt, pool, handle),
    }
}

fn take(rt: &(impl Print + AllocGlobal), pool: &mut Objects) -> Result<(), TourError> {
    let answer = Answer(pool.take());
    draw(rt, format_args!("take: {answer}"), pool.blocks())
}

fn give_back(
    rt: &(impl Print + AllocGlobal),
    pool: &mut Objects,
    handle: usize,
) -> Result<(), TourError> {
    let refusal = Refusal(pool.give_back(handle));
    draw(
        rt,
        format_args!("give back: {handle}{refusal}"),
        pool.blocks(),
    )
}

/// Returns an object and takes another one, for which there is room then.
fn exchange(pool: &mut Objects, handle: usize) -> Result<Result<usize, TakeError>, UnknownHandle>
    ensures room { IfOk result (λ taken. IsErrOf taken NoRoom → ⊥) }
    ensures unknown { IsErr result ↔ (lookup (nat_eq handle) pool.old.objects ≡ None) }
{
    pool.give_back(handle)?;
    Ok(pool.take())
}

fn show_exchange(
    rt: &(impl Print + AllocGlobal),
    pool: &mut Objects,
    handle: usize,
) -> Result<(), TourError> {
    let answer = Answer(exchange(pool, handle).map(|taken| Answer(taken)));
    draw(
        rt,
        format_args!("exchange: {handle}: {answer}"),
        pool.blocks(),
    )
}

/// Writes a text into the front of an object, and prints its first six bytes.
fn set(
    rt: &(impl Print + AllocGlobal),
    pool: &mut Objects,
    handle: usize,
    name: &str,
) -> Result<(), TourError> {
    let done = pool.set(handle, 0, name.as_bytes());
    let answer = Answer(done.map(|()| front(pool, handle)));
    draw(rt, format_args!("set: {handle}: {answer}"), pool.blocks())
}

/// The first six bytes of an object.
fn front(pool: &Objects, handle: usize) -> &str {
    text(pool.get(handle).ok().and_then(|bytes| bytes.get(..6)))
}
