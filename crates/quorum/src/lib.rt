// What an account's state asks of those who sign: the entry of a slot, the capability and the threshold of an operation.
#![tactic(auto)]

mod slot; // slot.rt
mod operation; // operation.rt

pub use self::operation::{is_capable, threshold_of};
pub use self::slot::{entry_in, find_authenticator};
