// The account's state in a transaction, and the one that follows it.
#![tactic(auto)]

mod resolve; // resolve.rt
mod session; // session.rt
mod transition; // transition.rt

pub use self::resolve::{
    ResolvedState, current_state, resolve_state, state_since, successor_state,
};
pub use self::transition::{check_data, validate_transition};
