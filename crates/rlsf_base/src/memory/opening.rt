//! A `Memory` as one from which bytes can leave, and back.
ghost use Rattle.std.specs.Prelude.{◌≡◌, [], length};
ghost use Rattle.rlsf_base.specs.Changes.{AreBytesHere};

use super::Memory;
use super::open_memory::OpenMemory;

impl Memory {
    /// Consumes the memory and returns it as one from which bytes can leave. Each byte is here.
    pub fn into_open(self) -> OpenMemory
        ensures memory { result ≡ self }
        ensures out { result.out ≡ [] }
    {
        let Memory { inner } = self;
        inner
    }
}

impl OpenMemory {
    /// Consumes the memory and returns it as one of which no byte is out. Start, bytes, counts and view are unchanged.
    ///
    /// Each byte must be here.
    pub fn into_closed(self) -> Memory
        requires { AreBytesHere self.out 0 (length self.bytes) }
        ensures start { result.start ≡ self.start }
        ensures bytes { result.bytes ≡ self.bytes }
        ensures touches { result.touches ≡ self.touches }
        ensures copied { result.copied ≡ self.copied }
        ensures view { result.view ≡ self.view }
    {
        let mut memory = self;
        memory.bytes.settle();
        Memory { inner: memory }
    }
}
