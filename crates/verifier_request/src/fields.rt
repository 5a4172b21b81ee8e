// The fields of a request by their names; zero where the bytes end before them.
// A function for each, over `u8_at` and its like, so that each field has the name that its definition has.
ghost use Rattle.std.specs.Prelude.{◌≡◌};
ghost use Rattle.verifier_request.specs.Fields.{request_magic_of, request_abi_of, request_reserved_of, request_header_length_of, request_algorithm_of, request_slot_of, request_operation_of, request_profile_of, request_zeros_of, request_aux_length_of, request_proof_length_of, request_last_zeros_of};

use crate::offsets::{
    ABI_OFFSET, ALGORITHM_OFFSET, AUX_LENGTH_OFFSET, HEADER_LENGTH_OFFSET, LAST_ZEROS_OFFSET,
    MAGIC_OFFSET, OPERATION_OFFSET, PROFILE_OFFSET, PROOF_LENGTH_OFFSET, RESERVED_OFFSET,
    SLOT_OFFSET, ZEROS_OFFSET,
};
use octets::{u8_at, u16_at, u32_at, u64_at};

pub(crate) fn request_magic_of(request: &[u8]) -> u32
    ensures { result ≡ request_magic_of request.now }
{
    u32_at(request, MAGIC_OFFSET)
}

pub(crate) fn request_abi_of(request: &[u8]) -> u8
    ensures { result ≡ request_abi_of request.now }
{
    u8_at(request, ABI_OFFSET)
}

pub(crate) fn request_reserved_of(request: &[u8]) -> u8
    ensures { result ≡ request_reserved_of request.now }
{
    u8_at(request, RESERVED_OFFSET)
}

pub(crate) fn request_header_length_of(request: &[u8]) -> u16
    ensures { result ≡ request_header_length_of request.now }
{
    u16_at(request, HEADER_LENGTH_OFFSET)
}

pub(crate) fn request_algorithm_of(request: &[u8]) -> u16
    ensures { result ≡ request_algorithm_of request.now }
{
    u16_at(request, ALGORITHM_OFFSET)
}

pub(crate) fn request_slot_of(request: &[u8]) -> u16
    ensures { result ≡ request_slot_of request.now }
{
    u16_at(request, SLOT_OFFSET)
}

pub(crate) fn request_operation_of(request: &[u8]) -> u8
    ensures { result ≡ request_operation_of request.now }
{
    u8_at(request, OPERATION_OFFSET)
}

pub(crate) fn request_profile_of(request: &[u8]) -> u8
    ensures { result ≡ request_profile_of request.now }
{
    u8_at(request, PROFILE_OFFSET)
}

pub(crate) fn request_zeros_of(request: &[u8]) -> u16
    ensures { result ≡ request_zeros_of request.now }
{
    u16_at(request, ZEROS_OFFSET)
}

pub(crate) fn request_aux_length_of(request: &[u8]) -> u32
    ensures { result ≡ request_aux_length_of request.now }
{
    u32_at(request, AUX_LENGTH_OFFSET)
}

pub(crate) fn request_proof_length_of(request: &[u8]) -> u32
    ensures { result ≡ request_proof_length_of request.now }
{
    u32_at(request, PROOF_LENGTH_OFFSET)
}

pub(crate) fn request_last_zeros_of(request: &[u8]) -> u64
    ensures { result ≡ request_last_zeros_of request.now }
{
    u64_at(request, LAST_ZEROS_OFFSET)
}
