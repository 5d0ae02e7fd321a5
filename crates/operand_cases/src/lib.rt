//! Cases of operands, of what is tested before an instruction is executed, and of constraints.
#![tactic(auto)]

#[cfg(test)]
mod constraints;
#[cfg(test)]
mod operands;
