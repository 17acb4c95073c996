//! What the command line asks for.

use rlsf_bench_common::BenchError;
use std::env;
use std::num::NonZeroUsize;
use std::rt::Env;

/// The arguments that the program takes.
const USAGE: &str =
    "usage: rlsf_bench_threads global|shared|both|one|set|lent|lent_shared|lent_malloc|heap|owner|all SLOTS STEPS THREADS [LEN], with SLOTS and THREADS from 1 on";

/// How many bytes of memory there are if none are asked for: as many as the pool of `rlsf_bench` has.
const LEN: usize = 1 << 25;

/// The allocators that are timed.
#[derive(Clone, Copy)]
pub(crate) enum Allocators {
    /// `global`: a `GlobalTlsf`.
    Global,
    /// `shared`: a `SharedHeap`.
    Shared,
    /// `both`: the first, and then the second.
    Both,
    /// `one`: a `SharedHeaps` of one heap.
    One,
    /// `set`: a `SharedHeaps` of a heap for each thread.
    Set,
    /// `lent`: an `OwnerHeap`, whose payloads other threads return.
    Lent,
    /// `lent_shared`: a `SharedHeap`, from which one thread allocates what others free.
    LentShared,
    /// `lent_malloc`: the system's allocator, from which one thread allocates what others free.
    LentMalloc,
    /// `heap`: a `Heap`, from which one thread allocates and frees in turn.
    Heap,
    /// `owner`: an `OwnerHeap`, from which one thread does the same.
    Owner,
    /// `all`: each of them.
    All,
}

impl Allocators {
    /// The allocators that the word names, if it names any.
    fn named(word: &str) -> Option<Allocators> {
        match word {
            "global" => Some(Allocators::Global),
            "shared" => Some(Allocators::Shared),
            "both" => Some(Allocators::Both),
            "one" => Some(Allocators::One),
            "set" => Some(Allocators::Set),
            "lent" => Some(Allocators::Lent),
            "lent_shared" => Some(Allocators::LentShared),
            "lent_malloc" => Some(Allocators::LentMalloc),
            "heap" => Some(Allocators::Heap),
            "owner" => Some(Allocators::Owner),
            "all" => Some(Allocators::All),
            _ => None,
        }
    }
}

/// What the command line asks for.
#[derive(Clone, Copy)]
pub(crate) struct Load {
    /// The allocators that are timed.
    pub(crate) allocators: Allocators,
    /// How many payloads can be live at once.
    pub(crate) slots: NonZeroUsize,
    /// How many steps each thread makes.
    pub(crate) steps: u64,
    /// How many threads there are.
    pub(crate) threads: NonZeroUsize,
    /// How many bytes of memory an allocator has.
    pub(crate) len: usize,
}

/// What the command line asks for: `ALLOCATOR SLOTS STEPS THREADS [LEN]`.
pub(crate) fn load_of<R: Env + AllocGlobal>(rt: &R) -> Result<Load, BenchError> {
    let words: Vec<String> = env::args(rt)?.collect(rt.alloc())?;
    load_in(&words).ok_or(BenchError::Usage(USAGE))
}

/// What the words of a command line ask for. `None` if a word is missing, wrong or too many.
fn load_in(words: &[String]) -> Option<Load> {
    let [_, allocators, slots, steps, threads, rest @ ..] = words else {
        return None;
    };
    Some(Load {
        allocators: Allocators::named(allocators)?,
        slots: slots.parse().ok()?,
        steps: steps.parse().ok()?,
        threads: threads.parse().ok()?,
        len: len_in(rest)?,
    })
}

/// The length of the memory that the last words ask for. `None` if it is wrong, or there are more words.
fn len_in(words: &[String]) -> Option<usize> {
    match words {
        [] => Some(LEN),
        [len] => len.parse().ok(),
        _ => None,
    }
}
