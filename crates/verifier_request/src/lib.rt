// The verifier request: its reader, which hands out places in the bytes, and its writer.
#![tactic(auto)]

mod fields; // fields.rt
mod offsets; // offsets.rt
mod reader; // reader.rt
mod writer; // writer.rt

pub use self::reader::{RequestFields, parse_verifier_request};
pub use self::writer::{RequestContent, encode_verifier_request};
