// How many cases passed and how many failed.
ghost use Rattle.std.specs.Prelude.{◌≡◌, length};
ghost use Rattle.std.proofs.lemmas.List.Edits.{sets};
ghost use Rattle.test_support.specs.Counts.{counted_with, count_text};

use octets::store_bytes;
use text::put_decimal;

// Room for the line of any counts.
pub const COUNT_LINE_MAX_LEN: usize = 57;

#[derive(Drop)]
pub struct Counts {
    pub passed: u64,
    pub failed: u64,
}

// One case more.
pub fn counted(counts: Counts, passes: bool) -> Counts
    ensures { result ≡ counted_with counts passes }
{
    if passes {
        Counts {
            passed: counts.passed.wrapping_add(1),
            ..counts
        }
    } else {
        Counts {
            failed: counts.failed.wrapping_add(1),
            ..counts
        }
    }
}

// Stores the line of the counts from the front of `out` on, as far as there is room, and says how long it is.
pub fn count_line(counts: Counts, out: &mut [u8]) -> usize
    ensures value { result ≡ length (count_text counts) }
    ensures out_after { out.new ≡ sets out.old 0 (count_text counts) }
{
    let passed_end = put_decimal(out, 0, counts.passed);
    store_bytes(out, passed_end, b" passed, ");
    let failed_at = passed_end + 9;
    let failed_end = failed_at + put_decimal(out, failed_at, counts.failed);
    store_bytes(out, failed_end, b" failed\n");
    failed_end + 8
}
