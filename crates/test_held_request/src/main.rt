// Runs the request that holds its bytes, through its functions.
#![tactic(auto)]

use held_request::{VerifierRequest, is_for};
use octets::{part, same_bytes};
use protocol::check_number;
use std::io;
use verifier_request::{RequestContent, encode_verifier_request};

fn print_answer(rt: &impl Print, answer: bool) -> io::Result<()> {
    println!(rt; "{}", if answer { "yes" } else { "no" })
}

// What the functions say of a request, and of this digest.
fn print_request(rt: &impl Print, request: &[u8], digest: &[u8]) -> io::Result<()> {
    let held = VerifierRequest::parse(request);
    println!(rt; "  refusal {}", held.refusal())?;
    print!(rt; "  the digest is the one ")?;
    print_answer(rt, same_bytes(held.authorization_digest(), digest))?;
    print!(rt; "  for this digest ")?;
    print_answer(rt, is_for(request, digest))
}

fn content(digest: [u8; 32], key: [u8; 32]) -> RequestContent<'static> {
    RequestContent {
        algorithm: 0x0101,
        slot: 7,
        operation: 1,
        profile: 3,
        digest,
        key,
        aux: b"a",
        proof: b"bcd",
    }
}

fn print_written(rt: &impl Print) -> io::Result<()> {
    let digest = [0x11u8; 32];
    let key = [0x22u8; 32];
    let mut request = [0u8; 100];
    let written = encode_verifier_request(&content(digest, key), &mut request);
    println!(rt; "written {}", check_number(written))?;
    println!(rt; "its digest:")?;
    print_request(rt, &request, &digest)?;
    println!(rt; "its key as the digest:")?;
    print_request(rt, &request, &key)?;
    println!(rt; "without its last byte:")?;
    print_request(rt, part(&request, 0, 99), &digest)
}

fn print_operation_4(rt: &impl Print) -> io::Result<()> {
    let digest = [0x11u8; 32];
    let mut request = [0u8; 100];
    let _ = encode_verifier_request(&content(digest, digest), &mut request);
    request[12] = 4;
    println!(rt; "operation 4:")?;
    print_request(rt, &request, &digest)
}

fn print_abi_2(rt: &impl Print) -> io::Result<()> {
    let digest = [0x11u8; 32];
    let mut request = [0u8; 100];
    let _ = encode_verifier_request(&content(digest, digest), &mut request);
    request[4] = 2;
    println!(rt; "ABI 2:")?;
    print_request(rt, &request, &digest)
}

fn main(rt: HostRuntime) -> io::Result<()> {
    print_written(&rt)?;
    print_operation_4(&rt)?;
    print_abi_2(&rt)
}
