//! Storage that remembers where bytes were put.
ghost use Rattle.std.specs.Prelude.{◌≡◌, ◌<◌, ◌≤◌, ◌+◌, All, length};
ghost use Rattle.z_regs.specs.Prefix.{storage_size};

use std::alloc::{AllocError, Global};
use vector_lines::Piece;
use z_regs::{Bytes, STORAGE_SIZE, Storage};

/// Storage, and the addresses at which bytes were put since all was zero.
#[derive(Drop)]
pub struct Watched {
    storage: Storage,
    puts: Vec<u64>,
    /// There was no memory for some address.
    has_forgotten: bool,
    ghost size: { length storage ≡ storage_size },
    ghost inside: { All (λ a. a < storage_size) puts.items },
}

impl Bytes for Watched {
    ghost bytes = { λ w. w.storage };

    fn get(&self, address: u64) -> u8 {
        self.storage.get(address)
    }

    fn put(&mut self, address: u64, byte: u8) {
        self.storage.put(address, byte);
        self.remember(address);
    }

    fn word(&self, address: u64, count: u8) -> u64 {
        self.storage.word(address, count)
    }

    fn put_word(&mut self, address: u64, count: u8, value: u64) {
        self.storage.put_word(address, count, value);
        self.remember_all(address, u64::from(count));
    }

    fn read_into(&self, address: u64, into: &mut [u8]) {
        self.storage.read_into(address, into);
    }

    fn put_all(&mut self, address: u64, items: &[u8]) {
        self.storage.put_all(address, items);
        self.remember_all(address, items.len() as u64);
    }
}

impl Watched {
    /// Storage of zeros.
    pub fn open(alloc: Global) -> Result<Watched, AllocError> {
        let zeros = vec![in alloc; 0u8; STORAGE_SIZE as usize]?;
        let Ok(storage) = Storage::open(alloc, zeros.as_slice()) else {
            return Err(AllocError);
        };
        Ok(Watched {
            storage,
            puts: Vec::new(alloc),
            has_forgotten: false,
        })
    }

    /// Remembers that a byte was put at an address.
    fn remember(&mut self, address: u64)
        requires { address < storage_size }
        ensures { self.new.storage ≡ self.old.storage }
    {
        if self.puts.push(address).is_err() {
            self.has_forgotten = true;
        }
    }

    /// Remembers that so many bytes were put from an address on.
    fn remember_all(&mut self, address: u64, count: u64)
        requires { address + count ≤ storage_size }
        ensures { self.new.storage ≡ self.old.storage }
    {
        for k in 0..count {
            self.remember(address + k);
        }
    }

    /// Puts the bytes of pieces.
    pub fn lay(&mut self, pieces: &[Piece]) {
        for piece in pieces {
            self.lay_one(piece);
        }
    }

    fn lay_one(&mut self, piece: &Piece) {
        for (k, byte) in piece.bytes.iter().enumerate() {
            self.put(piece.first + k as u64, *byte);
        }
    }

    /// The addresses at which bytes were put, in order, but for those that were forgotten.
    pub fn puts(&self) -> &[u64]
        ensures { All (λ a. a < storage_size) result.now }
    {
        self.puts.as_slice()
    }

    /// Whether there was no memory for some address.
    pub fn has_forgotten(&self) -> bool {
        self.has_forgotten
    }

    /// Makes the bytes zero again that were put.
    pub fn undo(&mut self) {
        erase(&mut self.storage, self.puts.as_slice());
        self.puts.clear();
    }
}

/// Makes the bytes at addresses zero.
fn erase(storage: &mut Storage, addresses: &[u64])
    requires size { length storage.old ≡ storage_size }
    requires inside { All (λ a. a < storage_size) addresses.now }
    ensures { length storage.new ≡ storage_size }
{
    for address in addresses {
        storage.put(*address, 0);
    }
}
