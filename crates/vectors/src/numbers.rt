// Numbers from bytes.
ghost use Rattle.std.specs.Prelude.{◌≡◌, ◌<◌};
ghost use Rattle.vectors.specs.CaseFile.{high_first};

// Four bytes as a number, high byte first.
pub fn number(a: u8, b: u8, c: u8, d: u8) -> u32
    ensures { result ≡ high_first a b c d }
{
    u32::from_be_bytes([a, b, c, d])
}
