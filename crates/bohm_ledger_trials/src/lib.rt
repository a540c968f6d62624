//! Tests of a ledger over the machine: entries are answered, stored, and found again.
#![tactic(auto)]

#[cfg(test)]
mod answers;
#[cfg(test)]
mod recovery;
