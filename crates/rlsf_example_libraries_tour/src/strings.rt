//! Strings that grow.

use crate::answer::{Answer, Refusal};
use crate::draw;
use crate::error::TourError;
use crate::messages::text;
use rlsf::Memory;
use rlsf_example_libraries::Strings;

/// A call of the script.
#[derive(Clone, Copy)]
enum Step {
    Create,
    Append(usize, &'static str),
    Concat(usize, usize),
    DropString(usize),
}

const SCRIPT: [Step; 8] = [
    Step::Create,
    Step::Append(0, "hello"),
    Step::Create,
    Step::Append(1, "world"),
    Step::Append(0, ", this one grows past the other "),
    Step::Concat(0, 1),
    Step::DropString(0),
    Step::Append(0, "?"),
];

/// Makes strings, lets them grow past each other, joins two and drops one.
pub(crate) fn show(rt: &(impl Print + AllocGlobal)) -> Result<(), TourError> {
    let memory = Memory::new(rt.alloc(), 16384, 320)?;
    let mut strings = Strings::new(rt.alloc(), memory);
    run_script(rt, &mut strings)
}

fn run_script(rt: &(impl Print + AllocGlobal), strings: &mut Strings) -> Result<(), TourError> {
    rt.println("Strings, in 320 bytes")?;
    for step in &SCRIPT {
        run_step(rt, strings, *step)?;
    }
    Ok(())
}

fn run_step(
    rt: &(impl Print + AllocGlobal),
    strings: &mut Strings,
    step: Step,
) -> Result<(), TourError> {
    match step {
        Step::Create => create(rt, strings),
        Step::Append(handle, more) => append(rt, strings, handle, more),
        Step::Concat(left, right) => concat(rt, strings, left, right),
        Step::DropString(handle) => drop_string(rt, strings, handle),
    }
}

fn create(rt: &(impl Print + AllocGlobal), strings: &mut Strings) -> Result<(), TourError> {
    let answer = Answer(strings.create());
    draw(rt, format_args!("create: {answer}"), strings.blocks())
}

fn append(
    rt: &(impl Print + AllocGlobal),
    strings: &mut Strings,
    handle: usize,
    more: &str,
) -> Result<(), TourError> {
    let done = strings.append(handle, more.as_bytes());
    let answer = Answer(done.map(|()| whole(strings, handle)));
    draw(
        rt,
        format_args!("append: {handle}: {answer}"),
        strings.blocks(),
    )
}

fn concat(
    rt: &(impl Print + AllocGlobal),
    strings: &mut Strings,
    left: usize,
    right: usize,
) -> Result<(), TourError> {
    match strings.concat(left, right) {
        Ok(handle) => {
            let whole = whole(strings, handle);
            draw(
                rt,
                format_args!("concat: {handle}: {whole}"),
                strings.blocks(),
            )
        }
        Err(error) => draw(
            rt,
            format_args!("concat: refused, {error:?}"),
            strings.blocks(),
        ),
    }
}

fn drop_string(
    rt: &(impl Print + AllocGlobal),
    strings: &mut Strings,
    handle: usize,
) -> Result<(), TourError> {
    let refusal = Refusal(strings.drop_string(handle));
    draw(
        rt,
        format_args!("drop: {handle}{refusal}"),
        strings.blocks(),
    )
}

/// The bytes of a string.
fn whole(strings: &Strings, handle: usize) -> &str {
    text(strings.bytes(handle).ok())
}
