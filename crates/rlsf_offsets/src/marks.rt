//! A mark for each unit that a space can have.

ghost use Rattle.std.specs.Prelude.{◌≡◌, ◌≢◌, ◌<◌, ℕ, length, IfSome, false};
ghost use Rattle.rlsf_offsets.specs.Marks.{is_marked};

use std::alloc::Global;

/// A mark for each unit: whether a live range begins there.
#[derive(Drop)]
pub(crate) struct Marks {
    marks: Vec<bool>,
}

impl Marks {
    /// Returns so many marks, none of which is set. Returns `None` if the system has no memory for them.
    pub(crate) fn new(alloc: Global, len: usize) -> Option<Marks>
        ensures none { IfSome result (λ m. (o : ℕ) → is_marked m o ≡ false) }
        ensures len { IfSome result (λ m. length m.marks.items ≡ len) }
    {
        let marks = Vec::from_elem(alloc, false, len).ok()?;
        Some(Marks { marks })
    }

    /// Returns whether the mark of a unit is set.
    pub(crate) fn get(&self, unit: usize) -> bool
        ensures { result ≡ is_marked self.now unit }
    {
        match self.marks.get(unit) {
            Some(mark) => *mark,
            None => false,
        }
    }

    /// Sets the mark of a unit, or takes it away.
    pub(crate) fn set(&mut self, unit: usize, is_live: bool)
        requires { unit < length self.old.marks.items }
        ensures here { is_marked self.new unit ≡ is_live }
        ensures others { (o : ℕ) → o ≢ unit → is_marked self.new o ≡ is_marked self.old o }
        ensures len { length self.new.marks.items ≡ length self.old.marks.items }
    {
        self.marks[unit] = is_live;
    }
}
