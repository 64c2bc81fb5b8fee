// Checksums of bytes and of words.
ghost use Rattle.std.specs.Prelude.{◌≡◌};
ghost use Rattle.vectors.specs.Checksum.{checksum, next};

// The sum after one item more.
fn with_item(sum: u32, item: u32) -> u32
    ensures { result ≡ next sum item }
{
    let full = sum as u64 * 31 + item as u64;
    (full % 4294967296) as u32
}

// The checksum of bytes.
pub fn byte_sum(bytes: &[u8]) -> u32
    ensures { result ≡ checksum bytes.now }
{
    bytes
        .iter()
        .fold(17, |sum, byte| with_item(sum, u32::from(*byte)))
}

// The checksum of words.
pub fn word_sum(words: &[u32]) -> u32
    ensures { result ≡ checksum words.now }
{
    words.iter().fold(17, |sum, word| with_item(sum, *word))
}
