//! The table.

use crate::advice::Advice;
use crate::counts::Count;
use crate::summary::Summary;
use rlsf_trace_runs::Moment;
use rlsf_trace_text::Configuration;
use std::alloc::AllocError;

/// Prints a line for each kind of calls.
pub(crate) fn print_counts(text: &mut String, counts: &[Count]) -> Result<(), AllocError> {
    text.push_str("call            lines   no room   refused\n")?;
    for count in counts {
        let Count {
            kind,
            calls,
            none,
            refused,
        } = *count;
        writeln!(text, "{kind:<10} {calls:>10}{none:>10}{refused:>10}")?;
    }
    Ok(())
}

/// Prints what the allocator held, and how many bytes its payloads asked for.
pub(crate) fn print_summary(
    text: &mut String,
    summary: Summary,
    asked: u128,
) -> Result<(), AllocError> {
    let Summary {
        last: Moment { live, usable },
        most_live,
        most_usable,
        used_bytes,
        free_blocks,
        free_bytes,
        longest,
    } = summary;
    let lost = used_bytes.saturating_sub(asked);
    writeln!(
        text,
        "
                                     at the end    at most
live payloads                   {live:>15}{most_live:>11}
their usable bytes              {usable:>15}{most_usable:>11}
bytes that they asked for       {asked:>15}
bytes of headers and rounding   {lost:>15}
free bytes                      {free_bytes:>15}
free blocks                     {free_blocks:>15}
longest free block              {longest:>15}"
    )
}

/// Prints the advice for a trace of a configuration.
pub(crate) fn print_advice(
    text: &mut String,
    configuration: Configuration,
    advice: Advice,
) -> Result<(), AllocError> {
    let Advice {
        live,
        size,
        align,
        enough,
        inserted,
        first_denied,
    } = advice;
    writeln!(
        text,
        "\n{live} payloads of up to {size} bytes at multiples of up to {align}"
    )?;
    print_enough(text, configuration, enough)?;
    print_half(text, inserted / 2, first_denied)
}

// Whether a pool of half the length has room for the trace.
fn print_half(
    text: &mut String,
    half: usize,
    first_denied: Option<u128>,
) -> Result<(), AllocError> {
    match first_denied {
        None => writeln!(
            text,
            "half the pool, {half} bytes, is enough for this trace"
        ),
        Some(line) => writeln!(
            text,
            "half the pool, {half} bytes, has no room at line {line}"
        ),
    }
}

fn print_enough(
    text: &mut String,
    configuration: Configuration,
    enough: Option<usize>,
) -> Result<(), AllocError> {
    match enough {
        Some(len) => writeln!(text, "never refused in a pool of      {len:>15}"),
        None => {
            let most = longest_chunk(configuration);
            writeln!(
                text,
                "no pool never refuses them: a chunk has at most {most} bytes"
            )
        }
    }
}

// How many bytes a chunk has at most: `MAX_POOL_SIZE`, or the greatest multiple of 32 where that is more.
fn longest_chunk(configuration: Configuration) -> usize {
    match configuration {
        Configuration::OneByOne => 64,
        Configuration::EightByEight | Configuration::EightByOne => 8192,
        Configuration::TwelveBySixteen => 131072,
        Configuration::FiftyNineByEight => 18446744073709551584,
    }
}
