//! How a worker takes the lock.

use std::hint::spin_loop;
use std::sync::{Mutex, MutexGuard, Wait};

/// How often the lock is tried before the thread sleeps for it: for longer than a loan or a homecoming has it,
/// and some tenths of a millisecond at most.
const TRIES: u32 = 2_000;

/// The lock, which is tried for a while before the thread sleeps for it. To sleep and to be woken takes longer
/// than what is done under it.
pub fn locked<'a, T, R: Wait>(rt: &R, mutex: &'a Mutex<T>) -> MutexGuard<'a, T> {
    for _ in 0..TRIES {
        if let Some(guard) = mutex.try_lock() {
            return guard;
        }
        spin_loop();
    }
    mutex.lock(rt)
}
