//! Calls of a `CheckedTlsf`: what each answers, wrong addresses and sizes among them.

mod all_blocks;
mod calls;
mod kept;
mod lengths;
mod pools;
mod random;
mod removals;
mod zeroed;
