//! A file of pages of 4096 bytes. Records are allocated in it, and the file grows if one finds no room.

use rlsf_offsets::OffsetTlsf;
use std::io;

const PAGE: usize = 4096;

/// Allocates a record of `len` bytes. If the file has no room, it grows by as many pages as the record needs, and an eighth of them.
fn append(file: &mut OffsetTlsf<4096>, len: usize) -> Option<usize> {
    if let Some(offset) = file.allocate(len, PAGE) {
        return Some(offset);
    }
    let more = len.checked_add(len / 8)?.checked_add(2 * PAGE)?;
    let longer = file.space_len().checked_add(more)?;
    if !file.grow(longer) {
        return None;
    }
    file.allocate(len, PAGE)
}

/// Prints where a record lies, and the length of the file.
fn print_record(rt: &HostRuntime, file: &mut OffsetTlsf<4096>, len: usize) -> io::Result<()> {
    match append(file, len) {
        Some(offset) => println!(rt; "{len} bytes at {offset}"),
        None => println!(rt; "no room for {len} bytes"),
    }
}

/// Allocates records in a file that has one page and can grow to 256.
pub(crate) fn print_pages(rt: &HostRuntime) -> io::Result<()> {
    let Ok(mut file) = OffsetTlsf::<4096>::with_limit(rt.alloc(), PAGE, 256 * PAGE) else {
        return println!(rt; "out of memory");
    };
    print_records(rt, &mut file)
}

fn print_records(rt: &HostRuntime, file: &mut OffsetTlsf<4096>) -> io::Result<()> {
    for len in [3000, 5000, 100000, 8192, 900000, 40000] {
        print_record(rt, file, len)?;
    }
    let pages = file.space_len() / PAGE;
    println!(rt; "the file has {pages} pages")
}
