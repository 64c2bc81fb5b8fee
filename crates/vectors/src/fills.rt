// What lent slices hold before a call.
ghost use Rattle.std.specs.Prelude.{◌≡◌, length};
ghost use Rattle.vectors.specs.CaseFile.{listed, output_byte};

// The byte of an output slice at a place, before the call.
fn output_byte(at: usize) -> u8
    ensures { result ≡ output_byte at }
{
    ((at % 256 * 7 + 165) % 256) as u8
}

// Fills an output slice.
#[tactic(auto, using(crate::proofs::FillLaws::filled_next), unfolding(crate::specs::CaseFile::listed))]
pub fn fill_output(out: &mut [u8])
    ensures { out.new ≡ listed output_byte (length out.old) }
{
    for (i, byte) in out.iter_mut().enumerate() {
        *byte = output_byte(i);
    }
}

// Fills a working slice with one word.
#[tactic(auto, using(crate::proofs::FillLaws::listed_alike))]
pub fn fill_work(work: &mut [u32], word: u32)
    ensures { work.new ≡ listed (λ i. word) (length work.old) }
{
    work.fill(word);
}
