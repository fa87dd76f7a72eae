ghost use Rattle.std.specs.Prelude.{◌≡◌, ℕ, [], List, IfOk};

use std::alloc::{AllocError, Global};
use std::marker::Model;
use std::mem;

/// Bytes of a job or a result: a `Vec<u8>` that contracts see as the list of its bytes.
///
/// ```
/// let bytes = Bytes::from_slice(rt.alloc(), b"packet")?;
/// expect(&rt, "lent", bytes.as_slice(), b"packet");
/// let vec = bytes.into_vec();
/// expect(&rt, "taken out", vec.as_slice(), b"packet");
/// ```
#[derive(Debug, Drop)]
pub struct Bytes {
    bytes: Vec<u8>,
}

impl Model for Bytes {
    ghost use Rattle.std.specs.Prelude.{List, ℕ};

    ghost Value = { List ℕ };

    ghost view = { λ b. b.bytes.items };
}

impl Bytes {
    /// The bytes of a vector. It takes no memory.
    pub fn from_vec(bytes: Vec<u8>) -> Bytes
        ensures { result ≡ bytes.items }
    {
        Bytes { bytes }
    }

    /// Equal bytes in memory of their own.
    ///
    /// Returns `AllocError` for want of memory.
    pub fn from_slice(alloc: Global, bytes: &[u8]) -> Result<Bytes, AllocError>
        ensures { IfOk result (λ b. b ≡ bytes.now) }
    {
        let bytes = Vec::from_slice(alloc, bytes)?;
        Ok(Bytes { bytes })
    }

    /// The vector that holds the bytes. It takes no memory.
    pub fn into_vec(self) -> Vec<u8>
        ensures { result.items ≡ self }
    {
        self.bytes
    }

    /// Equal bytes in memory of their own.
    ///
    /// Returns `AllocError` for want of memory.
    pub fn copy(&self, alloc: Global) -> Result<Bytes, AllocError>
        ensures { IfOk result (λ b. b ≡ self.now) }
    {
        Bytes::from_slice(alloc, self.as_slice())
    }

    /// Takes the bytes out of their place, in which none are left. It takes no memory.
    pub fn take(&mut self) -> Vec<u8>
        ensures taken { result.items ≡ self.old }
        ensures none { self.new ≡ [] }
    {
        let alloc = *self.bytes.allocator();
        mem::replace(&mut self.bytes, Vec::new(alloc))
    }

    /// These bytes, in place of those that it has: in the same memory if they fit, else in new memory.
    ///
    /// Returns `AllocError` for want of memory; the bytes are then as they were.
    #[inline(always)]
    pub fn refill(&mut self, alloc: Global, bytes: &[u8]) -> Result<(), AllocError>
        ensures { IfOk result (λ _. self.new ≡ bytes.now) }
    {
        if self.bytes.capacity() < bytes.len() {
            return self.renew(alloc, bytes);
        }
        self.bytes.clear();
        if bytes.is_empty() {
            return Ok(());
        }
        self.bytes.extend_from_slice(bytes)
    }

    /// These bytes in new memory, in place of those that it has. It stays out of line, so that filling memory that is long enough is short.
    ///
    /// Returns `AllocError` for want of memory; the bytes are then as they were.
    #[inline(never)]
    fn renew(&mut self, alloc: Global, bytes: &[u8]) -> Result<(), AllocError>
        ensures { IfOk result (λ _. self.new ≡ bytes.now) }
    {
        self.bytes = Vec::from_slice(alloc, bytes)?;
        Ok(())
    }

    /// No bytes, in place of those that it has. Memory of at most `most` bytes stays with it, with zeros in place of the bytes; longer
    /// memory is freed.
    #[inline(always)]
    pub fn clear(&mut self, most: usize)
        ensures { self.new ≡ [] }
    {
        if self.bytes.capacity() > most {
            let alloc = *self.bytes.allocator();
            self.bytes = Vec::new(alloc);
            return;
        }
        if !self.bytes.is_empty() {
            self.bytes.as_mut_slice().fill(0);
        }
        self.bytes.clear();
    }

    /// How many bytes of memory it has.
    pub fn capacity(&self) -> usize {
        self.bytes.capacity()
    }

    /// The bytes as a slice.
    pub fn as_slice(&self) -> &[u8]
        ensures { result.now ≡ self.now }
    {
        self.bytes.as_slice()
    }
}

impl From<Vec<u8>> for Bytes {
    ghost from_gives = { λ v b. b ≡ v.items };

    fn from(bytes: Vec<u8>) -> Bytes {
        Bytes::from_vec(bytes)
    }
}
