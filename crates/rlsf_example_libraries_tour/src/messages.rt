//! A queue of messages.

use crate::answer::{Answer, Refusal};
use crate::draw;
use crate::error::TourError;
use rlsf::Memory;
use rlsf_example_libraries::Messages;

/// A call of the script.
#[derive(Clone, Copy)]
enum Step {
    Push(&'static str),
    Pop,
}

const SCRIPT: [Step; 7] = [
    Step::Push("one"),
    Step::Push("the second one, which is a bit longer"),
    Step::Push("three"),
    Step::Push("four"),
    Step::Pop,
    Step::Push("four"),
    Step::Pop,
];

/// Pushes and pops messages.
pub(crate) fn show(rt: &(impl Print + AllocGlobal)) -> Result<(), TourError> {
    let memory = Memory::new(rt.alloc(), 4096, 320)?;
    let mut queue = Messages::new(rt.alloc(), memory, 3)?;
    run_script(rt, &mut queue)
}

fn run_script(rt: &(impl Print + AllocGlobal), queue: &mut Messages) -> Result<(), TourError> {
    draw(
        rt,
        "A queue of up to 3 messages, in 320 bytes",
        queue.blocks(),
    )?;
    for step in &SCRIPT {
        run_step(rt, queue, *step)?;
    }
    Ok(())
}

fn run_step(
    rt: &(impl Print + AllocGlobal),
    queue: &mut Messages,
    step: Step,
) -> Result<(), TourError> {
    match step {
        Step::Push(message) => push(rt, queue, message),
        Step::Pop => pop(rt, queue),
    }
}

fn push(
    rt: &(impl Print + AllocGlobal),
    queue: &mut Messages,
    message: &str,
) -> Result<(), TourError> {
    let refusal = Refusal(queue.push(message.as_bytes()));
    draw(rt, format_args!("push: {message}{refusal}"), queue.blocks())
}

fn pop(rt: &(impl Print + AllocGlobal), queue: &mut Messages) -> Result<(), TourError> {
    let mut into = [0; 64];
    let popped = queue.pop(&mut into);
    let answer = Answer(popped.map(|len| text(into.get(..len))));
    draw(rt, format_args!("pop: {answer}"), queue.blocks())
}

/// The bytes as text, if they are.
pub(crate) fn text(bytes: Option<&[u8]>) -> &str {
    match bytes.map(str::from_utf8) {
        Some(Ok(text)) => text,
        _ => "no text",
    }
}
