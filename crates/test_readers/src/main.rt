// Runs the rows that document 01 marks "Run" and that concern readers: slots 5, 5, and aux of 4,096, 4,097 and 5,000 bytes in a
// state, which document 02 makes 44; and the limit itself. Then the smallest state with what document 02 withdraws and still takes:
// flag 2, and capability 0x0008.
#![tactic(auto)]

use account_state::validate_state;
use account_state_writer::encode_state;
use account_witness::validate_witness;
use account_witness_writer::encode_witness;
use octets::{part, store_number};
use protocol::check_number;
use std::io;

// Two entries of slots 5 and 6, with one byte of aux each, and then the second one's slot made 5.
fn print_state_slots(rt: &impl Print) -> io::Result<()> {
    let fields = [5u16, 1, 3, 1, 1, 6, 1, 3, 1, 1];
    let mut bytes = [0u8; 134];
    bytes[1] = 1;
    bytes[68] = 1;
    let mut state = [0u8; 194];
    let written = encode_state(0, 7, 1, 1, 0, 0, &fields, &bytes, &mut state);
    println!(rt; "state, slots 5, 6: written {}", check_number(written))?;
    println!(rt;
        "state, slots 5, 6: {}",
        check_number(validate_state(&state))
    )?;
    state[115] = 5;
    println!(rt;
        "state, slots 5, 5: {}",
        check_number(validate_state(&state))
    )
}

// Two proofs of one byte, of slots 5 and 6, and then the second one's slot made 5.
fn print_witness_slots(rt: &impl Print) -> io::Result<()> {
    let slots = [5u16, 6];
    let lengths = [1u32, 1];
    let bytes = [0xaau8, 0xbb];
    let mut witness = [0u8; 34];
    let written = encode_witness(1, 7, &slots, &lengths, &bytes, &mut witness);
    println!(rt;
        "witness lock, slots 5, 6: written {}",
        check_number(written)
    )?;
    println!(rt;
        "witness lock, slots 5, 6: {}",
        check_number(validate_witness(&witness))
    )?;
    witness[25] = 5;
    println!(rt;
        "witness lock, slots 5, 5: {}",
        check_number(validate_witness(&witness))
    )
}

// A state of one entry with so many zeros of aux, as the writer would lay it out: the smallest one, its lengths changed.
fn lay_out(aux_len: u16, state: &mut [u8]) {
    let fields = [1u16, 0x0101, 3, 1, 1];
    let mut bytes = [0u8; 67];
    bytes[1] = 1;
    let _ = encode_state(0, 7, 1, 1, 0, 0, &fields, &bytes, state);
    store_number(state, 32, 2, 80 + aux_len as u64);
    store_number(state, 78, 2, aux_len as u64);
}

// What the writer says of an entry with so many bytes of aux, at most 5,000, and what the reader says of a state that has it.
fn print_aux(rt: &impl Print, aux_len: u16) -> io::Result<()> {
    let mut bytes = [0u8; 5066];
    bytes[1] = 1;
    let lent = part(&bytes, 0, 66 + aux_len as usize);
    let mut state = [0u8; 5112];
    let fields = [1u16, 0x0101, 3, 1, aux_len];
    let written = encode_state(0, 7, 1, 1, 0, 0, &fields, lent, &mut state);
    println!(rt; "state, aux {aux_len}: written {}", check_number(written))?;
    lay_out(aux_len, &mut state);
    let number = check_number(validate_state(part(&state, 0, 112 + aux_len as usize)));
    println!(rt; "state, aux {aux_len}: {number}")
}

// The smallest state with these flags and capabilities: what the writer says of it, and what the reader says of what was written.
fn print_session(rt: &impl Print, name: &str, flags: u8, capabilities: u16) -> io::Result<()> {
    let fields = [1u16, 0x0101, capabilities, 1, 1];
    let mut bytes = [0u8; 67];
    bytes[1] = 1;
    let mut state = [0u8; 113];
    let written = encode_state(flags, 7, 1, 1, 0, 0, &fields, &bytes, &mut state);
    println!(rt; "{name}: written {}", check_number(written))?;
    println!(rt; "{name}: {}", check_number(validate_state(&state)))
}

fn main(rt: HostRuntime) -> io::Result<()> {
    print_state_slots(&rt)?;
    print_witness_slots(&rt)?;
    print_aux(&rt, 2593)?;
    print_aux(&rt, 2594)?;
    print_aux(&rt, 4096)?;
    print_aux(&rt, 4097)?;
    print_aux(&rt, 5000)?;
    print_session(&rt, "state, flags 2", 2, 3)?;
    print_session(&rt, "state, capabilities 0x000b", 0, 0x000b)
}
