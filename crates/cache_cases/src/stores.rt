//! Stores of an attempt beside a plain model of the same storage: the blocks it has and the bytes they hold.

use std::alloc::{AllocError, Global};
use std::test::Fail;
use store_cache::{BLOCK_SIZE, StoreCache};
use z_regs::{STORAGE_SIZE, Storage};

/// The address of the doubleword of most tests.
const PLACE: u64 = 36864;

/// The bytes of the doubleword 4.
const FOUR: [u8; 8] = [0, 0, 0, 0, 0, 0, 0, 4];

/// Stores a byte, where it may be stored.
fn store(cache: &mut StoreCache, address: u64, byte: u8) -> bool {
    if address >= STORAGE_SIZE || !cache.has_room((address / BLOCK_SIZE as u64) as u32) {
        return false;
    }
    cache.store(address, byte);
    true
}

/// Stores a doubleword as NTSTG does, where it may be stored.
fn ntstg(cache: &mut StoreCache, address: u64, value: u64) -> bool {
    if address >= STORAGE_SIZE || address % 8 != 0 {
        return false;
    }
    if !cache.has_room((address / BLOCK_SIZE as u64) as u32) {
        return false;
    }
    cache.ntstg(address, value);
    true
}

/// Storage of zeros.
fn zeros(alloc: Global) -> Result<Storage, Fail> {
    let zeros = vec![in alloc; 0u8; STORAGE_SIZE as usize]?;
    Ok(Storage::open(alloc, zeros.as_slice())?)
}

/// Stores the doubleword 3 by NTSTG, and 4 over it, where there is room.
fn store_both(cache: &mut StoreCache) -> bool {
    if !ntstg(cache, PLACE, 3) || !cache.has_room((PLACE / BLOCK_SIZE as u64) as u32) {
        return false;
    }
    cache.store_bytes(PLACE, &FOUR);
    true
}

/// The attempt ends in a commit or an abort, where storage has its size.
fn end(cache: &mut StoreCache, storage: &mut Storage, is_commit: bool) -> bool {
    if storage.as_slice().len() != STORAGE_SIZE as usize {
        return false;
    }
    if is_commit {
        cache.commit(storage);
    } else {
        cache.abort(storage);
    }
    true
}

/// A byte of storage.
fn byte_of(storage: &Storage, address: u64) -> Option<u8> {
    storage.as_slice().get(address as usize).copied()
}

/// A copy of a cache.
fn copy_of(alloc: Global, cache: &StoreCache) -> Result<StoreCache, Fail> {
    let mut copy = StoreCache::open(alloc)?;
    copy.copy_from(cache);
    Ok(copy)
}

/// Aborts the attempt of a cache and then that of its copy: whether each was done; the last byte of the doubleword as
/// the first leaves it, as the copy shows it, and as the second leaves it; and the blocks of the cache.
fn aborted(
    cache: &mut StoreCache,
    copy: &mut StoreCache,
    storage: &mut Storage,
) -> ([bool; 2], [Option<u8>; 3], u32) {
    let first = end(cache, storage, false);
    let left = byte_of(storage, PLACE + 7);
    let seen = copy.byte(PLACE + 7);
    let second = end(copy, storage, false);
    let bytes = [left, seen, byte_of(storage, PLACE + 7)];
    ([first, second], bytes, cache.blocks())
}

/// The same of a cache and a copy that is made of it.
fn aborted_twice(
    alloc: Global,
    cache: &mut StoreCache,
    storage: &mut Storage,
) -> Result<([bool; 2], [Option<u8>; 3], u32), Fail> {
    let mut copy = copy_of(alloc, cache)?;
    Ok(aborted(cache, &mut copy, storage))
}

/// The same of the doubleword 3 by NTSTG with 4 stored over it, and whether these were stored.
fn both_aborted(alloc: Global) -> Result<(bool, ([bool; 2], [Option<u8>; 3], u32)), Fail> {
    let mut storage = zeros(alloc)?;
    let mut cache = StoreCache::open(alloc)?;
    let stored = store_both(&mut cache);
    Ok((stored, aborted_twice(alloc, &mut cache, &mut storage)?))
}

#[test]
fn the_last_ntstg_lasts(rt: HostRuntime) -> Result<(), Fail> {
    let answer = both_aborted(rt.alloc())?;
    let left = ([true; 2], [Some(3), Some(4), Some(3)], 0);
    assert_eq!(rt; answer, (true, left));
    Ok(())
}

/// Commits the attempt of a cache: whether it was done, the last byte of the doubleword and the next, and the blocks of
/// the cache.
fn committed(cache: &mut StoreCache, storage: &mut Storage) -> (bool, [Option<u8>; 2], u32) {
    let done = end(cache, storage, true);
    let left = [byte_of(storage, PLACE + 7), byte_of(storage, PLACE + 8)];
    (done, left, cache.blocks())
}

/// The same of the doubleword 3 by NTSTG with 4 stored over it, and whether these were stored.
fn last_committed(alloc: Global) -> Result<(bool, (bool, [Option<u8>; 2], u32)), Fail> {
    let mut storage = zeros(alloc)?;
    let mut cache = StoreCache::open(alloc)?;
    let stored = store_both(&mut cache);
    Ok((stored, committed(&mut cache, &mut storage)))
}

#[test]
fn a_commit_leaves_the_last_store(rt: HostRuntime) -> Result<(), Fail> {
    let answer = last_committed(rt.alloc())?;
    assert_eq!(rt; answer, (true, (true, [Some(4), Some(0)], 0)));
    Ok(())
}

/// The first byte and the last of a run that a cache has.
fn ends_of(cache: &StoreCache, address: u64, count: usize) -> Option<(u8, u8)> {
    if count == 0 {
        return None;
    }
    let run = cache.run(address, count)?;
    Some((*run.first()?, *run.last()?))
}

/// What a cache has of the doubleword 3 by NTSTG with 4 stored over it, of a part of it, and of one byte more; and whether these
/// were stored.
fn runs(alloc: Global) -> Result<(bool, [Option<(u8, u8)>; 3]), Fail> {
    let mut cache = StoreCache::open(alloc)?;
    let stored = store_both(&mut cache);
    let runs = [
        ends_of(&cache, PLACE, 8),
        ends_of(&cache, PLACE + 7, 1),
        ends_of(&cache, PLACE, 9),
    ];
    Ok((stored, runs))
}

#[test]
fn a_run_has_the_last_bytes(rt: HostRuntime) -> Result<(), Fail> {
    let answer = runs(rt.alloc())?;
    assert_eq!(rt; answer, (true, [Some((0, 4)), Some((4, 4)), None]));
    Ok(())
}

/// Stores a byte into every 128th block, and answers how many could be stored.
fn fill(cache: &mut StoreCache) -> u64 {
    let mut stored = 0u64;
    for k in 0..64u64 {
        if store(cache, k * 16384 + 5, 1) {
            stored = stored.saturating_add(1);
        }
    }
    stored
}

/// Whether every 128th block has room, and no other.
fn has_room_where_filled(cache: &StoreCache) -> bool {
    for block in 0..8192u32 {
        if cache.has_room(block) != (block % 128 == 0) {
            return false;
        }
    }
    true
}

/// The bytes that a cache shows at these addresses: 128, 5, 16389.
fn bytes_of(cache: &StoreCache) -> [Option<u8>; 3] {
    [cache.byte(128), cache.byte(5), cache.byte(16389)]
}

/// What comes of filling an empty cache: how many bytes are stored, whether the blocks that they are in have room and
/// no other, how many these are, and whether a byte of one more is stored; and what the cache shows.
fn filled(alloc: Global) -> Result<((u64, bool, u32, bool), [Option<u8>; 3]), Fail> {
    let mut cache = StoreCache::open(alloc)?;
    let stored = fill(&mut cache);
    let room = has_room_where_filled(&cache);
    let blocks = cache.blocks();
    let one_more = store(&mut cache, 128, 1);
    Ok(((stored, room, blocks, one_more), bytes_of(&cache)))
}

/// What an empty cache shows at the address of the doubleword.
fn byte_of_nothing(alloc: Global) -> Result<Option<u8>, Fail> {
    let cache = StoreCache::open(alloc)?;
    Ok(cache.byte(PLACE))
}

#[test]
fn sixty_four_blocks_have_room(rt: HostRuntime) -> Result<(), Fail> {
    let full = filled(rt.alloc())?;
    let none = byte_of_nothing(rt.alloc())?;
    let blocks = (64, true, 64, false);
    assert_eq!(rt; (full, none), ((blocks, [None, Some(1), Some(1)]), None));
    Ok(())
}

/// Stores as a plain list of addresses and bytes, in program order.
type Pairs = Vec<(u64, u8)>;

/// The last byte of an address in a list.
fn last_of(pairs: &Pairs, address: u64) -> Option<u8> {
    let mut last = None;
    for (at, byte) in pairs.as_slice() {
        if *at == address {
            last = Some(*byte);
        }
    }
    last
}

/// The bytes of a list into storage that is a plain list too.
fn lay(pairs: &Pairs, plain: &mut Vec<u8>) {
    for (at, byte) in pairs.as_slice() {
        if (*at as usize) < plain.len() {
            plain[*at as usize] = *byte;
        }
    }
}

/// A cache and storage, and beside them plain lists that do the same.
#[derive(Drop)]
struct Beside {
    cache: StoreCache,
    storage: Storage,
    stores: Pairs,
    lasting: Pairs,
    plain: Vec<u8>,
}

impl Beside {
    /// An empty cache and storage of zeros.
    fn open(alloc: Global) -> Result<Beside, Fail> {
        let plain = vec![in alloc; 0u8; STORAGE_SIZE as usize]?;
        let storage = zeros(alloc)?;
        let cache = StoreCache::open(alloc)?;
        Ok(Beside {
            cache,
            storage,
            stores: Vec::new(alloc),
            lasting: Vec::new(alloc),
            plain,
        })
    }

    /// A byte is stored, where it may be. Answers whether the cache shows the last byte stored there.
    fn store(&mut self, address: u64, byte: u8) -> Result<bool, AllocError> {
        if store(&mut self.cache, address, byte) {
            self.stores.push((address, byte))?;
        }
        Ok(self.cache.byte(address) == last_of(&self.stores, address))
    }

    /// A doubleword is stored as NTSTG does, where it may be.
    fn ntstg(&mut self, address: u64, value: u64) -> Result<bool, AllocError> {
        if ntstg(&mut self.cache, address, value) {
            for (at, byte) in value.to_be_bytes().iter().enumerate() {
                let pair = (address.wrapping_add(at as u64), *byte);
                self.stores.push(pair)?;
                self.lasting.push(pair)?;
            }
        }
        Ok(true)
    }

    /// The attempt ends in a commit or an abort. Answers whether storage is what it should be.
    fn end(&mut self, is_commit: bool) -> bool {
        if !end(&mut self.cache, &mut self.storage, is_commit) {
            return false;
        }
        if is_commit {
            lay(&self.stores, &mut self.plain);
        } else {
            lay(&self.lasting, &mut self.plain);
        }
        self.stores.clear();
        self.lasting.clear();
        self.storage.as_slice() == self.plain.as_slice()
    }

    /// What a number says.
    fn turn(&mut self, number: u64) -> Result<bool, AllocError> {
        let place = (number >> 33) % 12288;
        let byte = ((number >> 50) % 256) as u8;
        match (number >> 20) % 64 {
            0 => Ok(self.end(true)),
            1 => Ok(self.end(false)),
            2..=20 => self.ntstg(PLACE + place / 8 * 8, number),
            21..=40 => self.store(PLACE + place, byte),
            _ => self.store(PLACE + place % 64, byte),
        }
    }

    /// What so many numbers say, drawn one from another, until an answer is wrong. Answers how many were right.
    fn walk(&mut self, turns: u32) -> Result<u32, AllocError> {
        let mut number = 1u64;
        for right in 0..turns {
            number = number
                .wrapping_mul(6364136223846793005)
                .wrapping_add(1442695040888963407);
            if !self.turn(number)? {
                return Ok(right);
            }
        }
        Ok(turns)
    }
}

/// How many of so many turns from nothing are right.
fn walked(alloc: Global, turns: u32) -> Result<u32, Fail> {
    let mut beside = Beside::open(alloc)?;
    Ok(beside.walk(turns)?)
}

#[test]
fn walks_beside_plain_lists(rt: HostRuntime) -> Result<(), Fail> {
    assert_eq!(rt; walked(rt.alloc(), 1500)?, 1500);
    Ok(())
}
