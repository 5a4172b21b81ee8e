// The numbers of a reader, stored.
ghost use Rattle.std.specs.Prelude.{◌≡◌};
ghost use Rattle.std.proofs.lemmas.List.Edits.{sets};
ghost use Rattle.export_answers.specs.Words.{word_bytes};
ghost use Rattle.export_answers.specs.Stored.{StoresBytes};

use crate::stored::too_short;
use octets::store_number;

// Stores the words one by one.
fn store_each(words: &[u64], out: &mut [u8])
    ensures { out.new ≡ sets out.old 0 (word_bytes words.now) }
{
    for (i, &word) in words.iter().enumerate() {
        store_number(out, 8 * i, 8, word);
    }
}

// Stores the words at the front of `out`, or 5. They are lent just their part of it, so that no store looks for the end.
pub fn store_words(words: &[u64], out: &mut [u8]) -> u32
    ensures { StoresBytes 0 (word_bytes words.now) out.old result out.new }
{
    let end = 8 * words.len();
    if end <= out.len() {
        store_each(words, &mut out[0..end]);
        0
    } else {
        too_short()
    }
}
