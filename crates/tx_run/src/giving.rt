//! What the steps of a run have stored, for another CPU and other storage.
ghost use Rattle.std.specs.Prelude.{◌≡◌, ℕ, ◌<◌, ◌≤◌, length, List, None, Some};
ghost use Rattle.std.specs.Prelude.{true};
ghost use Rattle.z_regs.specs.Prefix.{storage_size, is_prefix};
ghost use Rattle.std.specs.FinSet.{items};
ghost use Rattle.tx_cpu.specs.Parts.{local_of, beside};
ghost use Rattle.tx_marks.specs.Away.{GoAway, ran};
ghost use Rattle.tx_marks.specs.Marks.{mode_in};
ghost use Rattle.tx_marks.specs.Places.{over};
ghost use Rattle.tx_marks.specs.Stranger.{GoesOnLike, SeeAlike, upon, only_at};
ghost use Rattle.tx_marks.specs.Own.{bytes_at, is_touched, given};
ghost use Rattle.tx_marks.specs.Traces.{is_stored, is_paged};
ghost use Rattle.tx_run.specs.Made.{IsMade, AgreeOnPages};

use crate::steps::Steps;
use tx_cpu::{Cpu, Program};
use tx_marks::Traces;
use z_regs::{Bytes, Storage};

/// The bytes of all marked places are those of other storage.
fn lay_stored<V: Bytes>(traces: &Traces, own: &Storage, base: &mut V)
    requires { length (V.bytes base.old) ≡ storage_size }
    ensures value { (a : ℕ) → bytes_at (V.bytes base.new) a
        ≡ over (is_stored traces.now) (bytes_at own.now) (bytes_at (V.bytes base.old)) a }
    ensures size { length (V.bytes base.new) ≡ storage_size }
{
    let bytes = own.as_slice();
    let mut from = 0;
    while let Some(at) = traces.next_stored(from) {
        let first = at as usize;
        let end = first + traces.stored_from(at);
        base.put_all(at, &bytes[first..end]);
        from = end as u64;
    }
}

/// The attempt stores what another one has stored at all marked places; both have touched the same.
fn add_stores(traces: &Traces, from: &Cpu, into: &mut Cpu)
    requires { (local_of into.old).attempt.footprint ≡ (local_of from.now).attempt.footprint }
    ensures { local_of into.new ≡ record (local_of into.old) {
      attempt = record (local_of into.old).attempt {
        overlay = upon (only_at (is_stored traces.now) (local_of from.now).attempt.overlay)
            (local_of into.old).attempt.overlay;
      };
    } }
{
    let mut next = 0;
    while let Some(at) = traces.next_stored(next) {
        if let Some(byte) = from.stored(at) {
            into.add_store(at, byte);
        }
        next = at + 1;
    }
}

/// The prefix of a CPU is one that a CPU may have.
fn has_prefix(cpu: &Cpu)
    ensures { is_prefix (local_of cpu.now).attempt.cpu.prefix ≡ true }
{
    let _prefix = cpu.image().prefix;
}

/// Gives what steps have made to another CPU and other storage. The CPU goes on like the one that was lent, and sees the same
/// over that storage wherever the steps have looked. As many of its turns could have been made away, with the same lines, also
/// by other text pages that are the same where the steps have looked.
pub(crate) fn give<V: Bytes>(steps: &Steps, program: &Program, into: &mut Cpu, base: &mut V)
    requires made { IsMade (items program.now.guard) program.now.storage steps.now }
    requires like { GoesOnLike (local_of steps.now.start).attempt (local_of into.old).attempt }
    requires alike { SeeAlike (is_touched steps.now.own) (local_of steps.now.start).attempt.overlay (given steps.now.own)
        (local_of into.old).attempt.overlay (bytes_at (V.bytes base.old)) }
    requires size { length (V.bytes base.old) ≡ storage_size }
    ensures given { (text : List ℕ) → AgreeOnPages (is_paged steps.now.traces) (items program.now.guard) text
        → beside into.new (V.bytes base.new) ≡ ran text steps.now.steps (beside into.old (V.bytes base.old)) }
    ensures away { (text : List ℕ) → AgreeOnPages (is_paged steps.now.traces) (items program.now.guard) text
        → GoAway text (mode_in steps.now.needed) steps.now.steps (beside into.old (V.bytes base.old)) }
    ensures count { (local_of into.new).attempt.count ≡ (local_of steps.now.reached).attempt.count }
    ensures size { length (V.bytes base.new) ≡ storage_size }
{
    let start = steps.start();
    let reached = steps.reached();
    start.is_sound();
    has_prefix(start);
    into.is_sound();
    into.go_on_as(reached);
    if reached.live().is_some() {
        add_stores(&steps.traces, reached, into);
    } else {
        lay_stored(&steps.traces, &steps.own.now, base);
    }
}
