// The public-key proof: its reader, which hands out places in the bytes, and its writer.
#![tactic(auto)]

mod fields; // fields.rt
mod offsets; // offsets.rt
mod reader; // reader.rt
mod writer; // writer.rt

pub use self::reader::{PublicKeyProof, parse_public_key_proof};
pub use self::writer::encode_public_key_proof;
