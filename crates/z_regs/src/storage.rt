//! Shared storage.
ghost use Rattle.std.specs.Prelude.{◌≡◌, ◌<◌, ◌≤◌, ◌+◌, ◌*◌, ◌^◌, List, ℕ, length, vec_len, IfOk, slice_index, slice_set};
ghost use Rattle.z_regs.specs.Prefix.{storage_size};
ghost use Rattle.z_regs.specs.Written.{range_at, written};
ghost use Rattle.byteorder.specs.Endian.{big_number, big_bytes};

use crate::number::number_in;
use crate::{Bytes, NoMemory};
use std::alloc::Global;
use std::marker::Model;

/// All of storage: 1,048,576 bytes from address 0 on. Contracts see their list.
#[derive(Drop)]
pub struct Storage {
    bytes: Vec<u8>,
}

impl Model for Storage {
    ghost Value = { List ℕ };

    ghost view = { λ s. s.bytes.items };

    ghost invariant = { λ s. vec_len s.bytes ≡ storage_size };
}

impl Storage {
    /// Storage that holds these bytes, which are 1,048,576. `NoMemory` comes for want of memory.
    pub fn open(alloc: Global, bytes: &[u8]) -> Result<Storage, NoMemory>
        requires { length bytes.now ≡ storage_size }
        ensures { IfOk result (λ storage. storage ≡ bytes.now) }
    {
        let bytes = Vec::from_slice(alloc, bytes)?;
        Ok(Storage { bytes })
    }

    /// Storage that is made of these bytes, which are 1,048,576. It takes no memory.
    pub fn of(bytes: Vec<u8>) -> Storage
        requires { vec_len bytes ≡ storage_size }
        ensures { result ≡ bytes.items }
    {
        Storage { bytes }
    }

    /// All the bytes.
    pub fn as_slice(&self) -> &[u8]
        ensures bytes { result.now ≡ self.now }
        ensures size { length self.now ≡ storage_size }
    {
        self.bytes.as_slice()
    }

    /// Changes the bytes from a place on.
    #[inline(always)]
    pub fn lay(&mut self, first: usize, bytes: &[u8])
        requires { first + length bytes.now ≤ length self.old }
        ensures { self.new ≡ written self.old first bytes.now }
    {
        self.bytes[first..first + bytes.len()].copy_from_slice(bytes);
    }
}

impl Bytes for Storage {
    ghost bytes = { λ s. s };

    fn get(&self, address: u64) -> u8 {
        self.bytes[address as usize]
    }

    fn put(&mut self, address: u64, byte: u8) {
        self.bytes[address as usize] = byte;
    }

    fn word(&self, address: u64, count: u8) -> u64 {
        number_in(&self.bytes, address as usize, count)
    }

    fn put_word(&mut self, address: u64, count: u8, value: u64) {
        let item = value.to_be_bytes();
        let first = address as usize;
        match count {
            8 => self.lay(first, &item),
            4 => self.lay(first, &item[4..]),
            2 => self.lay(first, &item[6..]),
            1 => self.lay(first, &item[7..]),
            _ => self.lay(first, &item[8 - usize::from(count)..]),
        }
    }

    #[inline(always)]
    fn read_into(&self, address: u64, into: &mut [u8]) {
        let first = address as usize;
        into.copy_from_slice(&self.bytes[first..first + into.len()]);
    }

    #[inline(always)]
    fn put_all(&mut self, address: u64, items: &[u8]) {
        self.lay(address as usize, items);
    }
}
