// The lock's args, algorithms and operations.
ghost use Rattle.std.specs.Prelude.{◌≡◌, cond};
ghost use Rattle.protocol.specs.Args.{read_args};
ghost use Rattle.protocol.specs.Policy.{is_supported_algorithm, capability_for};
ghost use Rattle.exports.specs.Readers.{StoresWords, args_words, capability_words};
ghost use Rattle.exports.specs.Writers.{args_writer_fault, args_written, args_stored, WritesArgs};

use export_answers::{store_words, written};
use octets::{array_32, store_bytes};
use protocol::{
    ACCOUNT_LOCK_ARGS_LEN, AccountLockArgs, ProtocolError, account_lock_args,
    capability_for_operation, error_number, is_supported_algorithm, require,
};

// Stores the version and the place of the account id.
#[tactic(auto, unfolding(export_answers::specs::Stored::answer_bytes, crate::specs::Readers::args_words))]
#[unsafe(no_mangle)]
pub extern "C" fn fowlcredenza_parse_args(args: &[u8], out: &mut [u8]) -> u32
    ensures { StoresWords args_words (read_args args.now) out.old result out.new }
{
    match AccountLockArgs::parse(args) {
        Err(error) => error_number(error) as u32,
        Ok(fields) => {
            let words = [fields.version as u64, fields.account_id as u64];
            store_words(&words, out)
        }
    }
}

// 1 where the algorithm is supported, else 0.
#[unsafe(no_mangle)]
pub extern "C" fn fowlcredenza_is_supported_algorithm(algorithm: u16) -> u32
    ensures { result ≡ cond (is_supported_algorithm algorithm) 1 0 }
{
    u32::from(is_supported_algorithm(algorithm))
}

// Stores the capability bit that an operation needs.
#[tactic(auto, unfolding(export_answers::specs::Stored::answer_bytes, crate::specs::Readers::capability_words))]
#[unsafe(no_mangle)]
pub extern "C" fn fowlcredenza_capability_for_operation(operation: u8, out: &mut [u8]) -> u32
    ensures { StoresWords capability_words (capability_for operation) out.old result out.new }
{
    match capability_for_operation(operation) {
        Err(error) => error_number(error) as u32,
        Ok(bit) => {
            let words = [bit as u64];
            store_words(&words, out)
        }
    }
}

#[tactic(auto, unfolding(protocol::specs::Rows::decide, protocol::specs::Write::write_fault, crate::specs::Writers::args_writer_fault))]
fn check_account(account: &[u8], room: usize) -> Result<(), ProtocolError>
    ensures { result ≡ args_writer_fault account.now room }
{
    require(account.len() == 32, ProtocolError::SlicesDisagree)?;
    require(ACCOUNT_LOCK_ARGS_LEN <= room, ProtocolError::BufferTooShort)
}

// The args of an account. An account of another length than 32 is 7.
#[tactic(auto, unfolding(crate::specs::Writers::args_written, crate::specs::Writers::args_stored, protocol::specs::Write::write_answer, protocol::specs::Write::after_write))]
fn write_args(account: &[u8], out: &mut [u8]) -> Result<usize, ProtocolError>
    ensures value { result ≡ args_written account.now out.old }
    ensures out_after { out.new ≡ args_stored account.now out.old }
{
    check_account(account, out.len())?;
    let args = account_lock_args(array_32(account));
    store_bytes(out, 0, &args);
    Ok(ACCOUNT_LOCK_ARGS_LEN)
}

// Writes the args of an account: 0x01 and the account.
#[unsafe(no_mangle)]
pub extern "C" fn fowlcredenza_account_lock_args(
    account: &[u8],
    out: &mut [u8],
    len: &mut usize,
) -> u32
    ensures { WritesArgs account.now out.old len.old result out.new len.new }
{
    written(write_args(account, out), len)
}
