//! Copies of bytes, and of items.

ghost use Rattle.std.specs.Prelude.{◌≡◌, ℕ, ◌+◌, ◌<◌, ◌≤◌, length, slice_index, take};

/// Copies so many items from the beginning of a list.
pub fn copy_front<T: Copy + Drop>(into: &mut [T], from: &[T], count: usize)
    requires into { count ≤ length into.old }
    requires from { count ≤ length from.now }
    ensures size { length into.new ≡ length into.old }
    ensures front { take count into.new ≡ take count from.now }
{
    into[..count].copy_from_slice(&from[..count]);
}

/// Copies the bytes to their place among others.
#[inline(always)]
pub fn copy_into(others: &mut [u8], at: usize, bytes: &[u8])
    requires { at + length bytes.now ≤ length others.old }
    ensures size { length others.new ≡ length others.old }
    ensures bytes { (k : ℕ) → k < length bytes.now
        → slice_index others.new (at + k) ≡ slice_index bytes.now k }
    ensures before { (k : ℕ) → k < at → slice_index others.new k ≡ slice_index others.old k }
    ensures behind { (k : ℕ) → at + length bytes.now ≤ k
        → slice_index others.new k ≡ slice_index others.old k }
{
    copy_all(&mut others[at..at + bytes.len()], bytes);
}

/// Copies as many bytes as there is room for.
#[inline(always)]
fn copy_all(into: &mut [u8], bytes: &[u8])
    requires { length into.old ≡ length bytes.now }
    ensures { into.new ≡ bytes.now }
{
    if bytes.len() == 8 {
        into.copy_from_slice(&eight(bytes));
    } else {
        into.copy_from_slice(bytes);
    }
}

/// The eight bytes, by themselves.
#[inline(always)]
pub fn eight(bytes: &[u8]) -> [u8; 8]
    requires { length bytes.now ≡ 8 }
    ensures { result ≡ bytes.now }
{
    let mut item = [0u8; 8];
    item.copy_from_slice(bytes);
    item
}
