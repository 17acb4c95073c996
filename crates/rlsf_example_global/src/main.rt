//! Two threads over one allocator. Each writes a number to a payload, doubles the payload, reads the number and frees the payload.
#![tactic(auto)]

use rlsf::{Layout, Memory};
use rlsf_global::{GlobalError, GlobalTlsf};
use std::alloc::Global;
use std::io;
use std::sync::Wait;
use std::thread::{Threads, join};

/// Returns an allocator over four pages. `None` if the system is out of memory.
fn over_four_pages(alloc: Global) -> Option<GlobalTlsf> {
    let memory = Memory::new(alloc, 65536, 262144).ok()?;
    Some(GlobalTlsf::new(alloc, memory))
}

/// Writes a number to a payload, makes the payload longer, reads the number, and frees the payload.
fn kept<R: Wait>(rt: &R, shared: &GlobalTlsf, number: u64) -> Result<u64, GlobalError> {
    let layout = Layout::from_size_align_unchecked(64, 8);
    let longer = Layout::from_size_align_unchecked(1000, 8);
    let addr = shared.alloc(rt, layout)?;
    shared.write_payload(rt, addr, 0, &number.to_le_bytes())?;
    let addr = shared.realloc(rt, addr, layout, longer.size())?;
    let mut bytes = [0; 8];
    shared.read_payload(rt, addr, 0, &mut bytes)?;
    shared.dealloc(rt, addr, longer)?;
    Ok(u64::from_le_bytes(bytes))
}

/// Lets two threads keep a number each.
fn in_two_threads<R: Threads + Wait + Sync>(
    rt: &R,
    shared: &GlobalTlsf,
) -> Result<[u64; 2], GlobalError> {
    let (first, second) = join(rt, || kept(rt, shared, 1), || kept(rt, shared, 2));
    Ok([first?, second?])
}

fn main(rt: HostRuntime) -> io::Result<()> {
    let Some(shared) = over_four_pages(rt.alloc()) else {
        return println!(rt; "out of memory");
    };
    println!(rt; "from two threads: {:?}", in_two_threads(&rt, &shared))
}
