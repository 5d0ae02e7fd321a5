//! What part an instruction has in the rules of transactions.
ghost use Rattle.std.specs.Prelude.{◌≡◌};
ghost use Rattle.z_instr.specs.Table.{entry_at};
ghost use Rattle.z_instr.specs.Roles.{is_end as ends, sets_access_register as sets_access, is_relative_branch as branches, begins as begins_one, block_named as named};

use crate::addresses::first_address;
use crate::form::has_target;
use crate::instr::Instr;
use crate::kind::{General, Kind, Transaction};
use crate::lookup::line;
use crate::op::Op;
use crate::operand::Demand;

/// Whether the operation is TEND, which takes away a level of a transaction.
pub fn is_end(op: Op) -> bool
    ensures { result ≡ ends (entry_at op.number) }
{
    matches!(line(op).kind, Kind::Transaction(Transaction::End))
}

/// Whether the operation is SAR, which transactions allow only where the effective A control is one.
pub fn sets_access_register(op: Op) -> bool
    ensures { result ≡ sets_access (entry_at op.number) }
{
    matches!(line(op).kind, Kind::General(General::SetAccess))
}

/// Whether the operation branches to a target that stands in the instruction: all that have a target, but for
/// LARL. Asked at each turn of a constrained attempt.
#[inline(always)]
pub fn is_relative_branch(op: Op) -> bool
    ensures { result ≡ branches (entry_at op.number) }
{
    let line = line(op);
    has_target(line.form) && !matches!(line.kind, Kind::General(General::Target))
}

/// Whether the operation begins a transaction: TBEGIN or TBEGINC.
pub fn begins(op: Op) -> bool
    ensures { result ≡ begins_one (entry_at op.number) }
{
    matches!(
        line(op).kind.demand(),
        Demand::Begin | Demand::BeginConstrained
    )
}

/// The address of the diagnostic block that an instruction names: only a TBEGIN with a base register names
/// one.
pub fn block_named(instr: &Instr, general: &[u64; 16]) -> Option<u64>
    ensures { result ≡ named instr.now general.now }
{
    if instr.b == 0 {
        return None;
    }
    match line(instr.op).kind.demand() {
        Demand::Begin => Some(first_address(instr, general)),
        _ => None,
    }
}
