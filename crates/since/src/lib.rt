// A since, read by CKB's RFC 0017.
#![tactic(auto)]

mod epoch; // epoch.rt
mod since; // since.rt

pub use self::since::{is_reached, is_well_formed};
