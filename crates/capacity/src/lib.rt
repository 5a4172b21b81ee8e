// The capacity of a transaction's inputs and outputs, and the fee.
#![tactic(auto)]

mod total; // total.rt
mod fee; // fee.rt

pub use self::fee::{check_totals, fee_where};
