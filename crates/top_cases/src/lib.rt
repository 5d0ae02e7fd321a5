//! Cases of the top call.
#![tactic(auto)]

#[cfg(test)]
mod calls;
