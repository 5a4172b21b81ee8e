// The lock of a witness and the args of a script: fields that hold a vector of bytes.
ghost use Rattle.std.specs.Prelude.{◌≡◌, Ok};
ghost use Rattle.octets.specs.Places.{bytes_at};
ghost use Rattle.protocol.specs.Rows.{decide};
ghost use Rattle.molecule.specs.Bytes.{bytes_rows, bytes_place_from, read_bytes};
ghost use Rattle.molecule.specs.Bytes.{witness_lock_rows, witness_lock_place, read_witness_lock};
ghost use Rattle.molecule.specs.Bytes.{script_args_rows, script_args_place, read_script_args};

use crate::fields::{bytes_length_of, first_field, third_field, third_offset_of};
use crate::table::check_table;
use octets::{Place, part_at};
use protocol::{ProtocolError, require};

// A length, then exactly so many bytes.
#[tactic(auto, unfolding(protocol::specs::Rows::decide, crate::specs::Bytes::bytes_rows))]
fn check_bytes(field: &[u8], error: ProtocolError) -> Result<(), ProtocolError>
    ensures { result ≡ decide (Ok tt) (bytes_rows error field.now) }
{
    require(4 <= field.len(), error)?;
    require(4 + bytes_length_of(field) as usize == field.len(), error)
}

// The place of the bytes of a field that begins at `at`.
#[tactic(auto, unfolding(crate::specs::Bytes::bytes_place_from))]
fn place_of(at: u32, field: &[u8]) -> Place
    ensures { result ≡ bytes_place_from at field.now }
{
    Place {
        start: at as usize + 4,
        len: bytes_length_of(field) as usize,
    }
}

// The place of the bytes in a field.
#[tactic(auto, unfolding(crate::specs::Bytes::read_bytes))]
pub fn molecule_bytes(field: &[u8]) -> Result<Place, ProtocolError>
    ensures { result ≡ read_bytes field.now }
{
    check_bytes(field, ProtocolError::InvalidWitness)?;
    Ok(place_of(0, field))
}

#[tactic(auto, unfolding(protocol::specs::Rows::decide, crate::specs::Table3::table_rows, crate::specs::Bytes::bytes_rows, crate::specs::Bytes::witness_lock_rows))]
pub fn check_witness_lock(witness: &[u8]) -> Result<(), ProtocolError>
    ensures { result ≡ decide (Ok tt) (witness_lock_rows witness.now) }
{
    let invalid = ProtocolError::InvalidWitness;
    check_table(witness, invalid)?;
    let field = first_field(witness);
    require(1 <= field.len(), invalid)?;
    check_bytes(field, invalid)
}

// Where the lock's bytes stand in a witness that passes.
fn witness_lock_place(witness: &[u8]) -> Place
    ensures { result ≡ witness_lock_place witness.now }
{
    place_of(16, first_field(witness))
}

// The bytes there.
pub fn lock_of(witness: &[u8]) -> &[u8]
    ensures { result.now ≡ bytes_at witness.now (witness_lock_place witness.now) }
{
    part_at(witness, witness_lock_place(witness))
}

// The place in a witness of its lock's bytes.
#[tactic(auto, unfolding(crate::specs::Bytes::read_witness_lock))]
pub fn witness_lock(witness: &[u8]) -> Result<Place, ProtocolError>
    ensures { result ≡ read_witness_lock witness.now }
{
    check_witness_lock(witness)?;
    Ok(witness_lock_place(witness))
}

#[tactic(auto, unfolding(protocol::specs::Rows::decide, crate::specs::Table3::table_rows, crate::specs::Bytes::bytes_rows, crate::specs::Bytes::script_args_rows))]
pub fn check_script_args(script: &[u8]) -> Result<(), ProtocolError>
    ensures { result ≡ decide (Ok tt) (script_args_rows script.now) }
{
    let invalid = ProtocolError::InvalidArgs;
    check_table(script, invalid)?;
    check_bytes(third_field(script), invalid)
}

// Where the args' bytes stand in a script that passes.
fn script_args_place(script: &[u8]) -> Place
    ensures { result ≡ script_args_place script.now }
{
    place_of(third_offset_of(script), third_field(script))
}

// The bytes there.
pub fn args_of(script: &[u8]) -> &[u8]
    ensures { result.now ≡ bytes_at script.now (script_args_place script.now) }
{
    part_at(script, script_args_place(script))
}

// The place in a script of its args' bytes.
#[tactic(auto, unfolding(crate::specs::Bytes::read_script_args))]
pub fn script_args(script: &[u8]) -> Result<Place, ProtocolError>
    ensures { result ≡ read_script_args script.now }
{
    check_script_args(script)?;
    Ok(script_args_place(script))
}
