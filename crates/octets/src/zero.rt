// Lent slices zeroed.
ghost use Rattle.std.specs.Prelude.{◌≡◌};
ghost use Rattle.octets.specs.Zeroed.{zeroed};

// Makes every byte of the slice 0.
pub fn zero_bytes(bytes: &mut [u8])
    ensures { bytes.new ≡ zeroed bytes.old }
{
    bytes.fill(0);
}

// Makes every number of the slice 0. Two functions of a line each: a generic one would need a zero of its type.
pub fn zero_words(words: &mut [u32])
    ensures { words.new ≡ zeroed words.old }
{
    words.fill(0);
}
