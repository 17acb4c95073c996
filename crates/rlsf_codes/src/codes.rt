//! A code for each multiple of 16 in a memory.

ghost use Rattle.std.specs.Prelude.{◌≡◌, ◌≢◌, ◌≤◌, ◌<◌, ◌+◌, ◌-◌, ◌*◌, ◌/◌, ◌^◌, ℕ, length, get_or, min, OnErr, OnOk};

use crate::looks::Looks;
use std::alloc::{AllocError, Global};

/// A code for each multiple of 16 in a memory. The codes behind the last one that was written aren't stored: they are the one that `new` was
/// passed. An address without a place has that code, too.
///
/// For contracts alone, it counts the codes that `look` and `set` read or write. No call resets the count.
#[derive(Drop)]
pub struct Codes<T> {
    // The first multiple of 16, divided by 16.
    first: usize,
    codes: Vec<T>,
    // How many codes there can be.
    count: usize,
    // The code of an address without a place.
    none: T,
    looks: Looks,
    ghost few: { length codes.items ≤ count },
    ghost narrow: { first + count < 2 ^ 62 },
}

impl<T: Copy> Codes<T> {
    ghost use Rattle.rlsf_codes.specs.Codes.{HasCapacity, HasPlace, code_at, code_space, codes_for, look_count};

    /// Creates no codes, for the addresses of a memory of `len` bytes from `start` on. The system is asked nothing.
    pub fn new(alloc: Global, start: usize, len: usize, none: T) -> Codes<T>
        ensures space { code_space result ≡ codes_for start len none }
        ensures none { length result.codes.items ≡ 0 }
        ensures looks { look_count result ≡ 0 }
    {
        Codes {
            first: start / 16,
            codes: Vec::new(alloc),
            count: len / 16 + 2,
            none,
            looks: Looks::new(),
        }
    }

    /// Reserves room for all codes, and writes none. If there is room, the system is asked nothing.
    pub fn reserve(&mut self) -> Result<(), AllocError>
        ensures codes { self.new.codes.items ≡ self.old.codes.items }
        ensures space { code_space self.new ≡ code_space self.old }
        ensures room { OnOk result (HasCapacity self.new) }
        ensures more { HasCapacity self.old → HasCapacity self.new }
        ensures refused { OnErr result (HasCapacity self.old → ⊥) }
        ensures looks { look_count self.new ≡ look_count self.old }
    {
        if self.count <= self.codes.capacity() {
            return Ok(());
        }
        self.make_room()
    }

    /// Does what `reserve` does if there is no room.
    #[inline(never)]
    fn make_room(&mut self) -> Result<(), AllocError>
        ensures codes { self.new.codes.items ≡ self.old.codes.items }
        ensures space { code_space self.new ≡ code_space self.old }
        ensures room { OnOk result (HasCapacity self.new) }
        ensures more { HasCapacity self.old → HasCapacity self.new }
        ensures refused { OnErr result (HasCapacity self.old → ⊥) }
        ensures looks { look_count self.new ≡ look_count self.old }
    {
        self.codes.try_reserve_exact(self.count - self.codes.len())
    }

    /// Stores the first `places` codes, or all of them if there are fewer. There is room for all. The codes stay, and none is counted.
    pub fn cover(&mut self, places: usize)
        requires { HasCapacity self.old }
        ensures same { (a : ℕ) → code_at self.new a ≡ code_at self.old a }
        ensures there { min places self.new.count ≤ length self.new.codes.items }
        ensures room { HasCapacity self.new }
        ensures space { code_space self.new ≡ code_space self.old }
        ensures looks { look_count self.new ≡ look_count self.old }
    {
        let wanted = places.min(self.count);
        if wanted <= self.codes.len() {
            return;
        }
        let _ = self.codes.resize(wanted, self.none);
    }

    /// Sets all codes to those of addresses without a place. Those that are stored stay stored, and none is counted.
    pub fn clear(&mut self)
        ensures none { (a : ℕ) → code_at self.new a ≡ self.old.none }
        ensures places { (a : ℕ) → HasPlace self.old a → HasPlace self.new a }
        ensures looks { look_count self.new ≡ look_count self.old }
    {
        let stored = self.codes.len();
        self.codes.clear();
        let _ = self.codes.resize(stored, self.none);
    }

    /// Returns how many codes lie before an address.
    pub fn before(&self, addr: usize) -> usize
        ensures { result ≡ addr / 16 - self.now.first }
    {
        (addr / 16).saturating_sub(self.first)
    }

    /// Returns the code of an address, and doesn't count it.
    pub fn get(&self, addr: usize) -> T
        ensures { result ≡ code_at self.now addr }
    {
        if addr % 16 != 0 {
            return self.none;
        }
        // Below the first address the difference wraps, and is no place either.
        let place = (addr / 16).wrapping_sub(self.first);
        match self.codes.get(place) {
            Some(code) => *code,
            None => self.none,
        }
    }

    /// Returns the code of an address, and counts it.
    pub fn look(&mut self, addr: usize) -> T
        ensures code { result ≡ code_at self.old addr }
        ensures codes { self.new.codes ≡ self.old.codes }
        ensures space { code_space self.new ≡ code_space self.old }
        ensures looks { look_count self.new ≡ look_count self.old + 1 }
    {
        self.looks.add(1); // a code that is read
        self.get(addr)
    }

    /// Sets the code of an address, and counts it.
    pub fn set(&mut self, addr: usize, code: T)
        requires { HasPlace self.old addr }
        ensures here { code_at self.new addr ≡ code }
        ensures others { (a : ℕ) → a ≢ addr → code_at self.new a ≡ code_at self.old a }
        ensures places { (a : ℕ) → HasPlace self.old a → HasPlace self.new a }
        ensures room { HasCapacity self.old → HasCapacity self.new }
        ensures space { code_space self.new ≡ code_space self.old }
        ensures looks { look_count self.new ≡ look_count self.old + 1 }
    {
        self.looks.add(1); // a code that is written
        let place = addr / 16 - self.first;
        self.codes[place] = code;
    }

    /// Returns how many codes are stored.
    pub fn len(&self) -> usize
        ensures { result ≡ length self.now.codes.items }
    {
        self.codes.len()
    }

    /// Returns the code at a place.
    pub fn code(&self, place: usize) -> T
        requires { place < length self.now.codes.items }
        ensures { result ≡ get_or self.now.codes.items place self.now.none }
    {
        self.codes[place]
    }

    /// Returns the address of a place.
    pub fn addr(&self, place: usize) -> usize
        requires { (self.now.first + place) * 16 < 2 ^ 64 }
        ensures { result ≡ (self.now.first + place) * 16 }
    {
        (self.first + place) * 16
    }
}
