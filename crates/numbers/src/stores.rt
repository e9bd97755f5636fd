// Storing a number at a place of a list of bytes.
ghost use Rattle.std.specs.Prelude.{◌≡◌, ◌+◌, ◌≤◌, length};
ghost use Rattle.numbers.specs.Numbers.{byte_count, inside, put_at, put_if};

use crate::copies::copy;
use crate::size::Size;

// Writes the low 4 or 8 bytes of a value from a place on, or nothing where the list ends before them; and says which.
#[tactic(auto, using(crate::proofs::Bytes::four_little, crate::proofs::Bytes::eight_little, crate::proofs::BufferLaws::put_if_laid))]
pub fn store(bytes: &mut [u8], at: usize, size: Size, value: u64) -> bool
    ensures value { result ≡ inside (length bytes.old) at (byte_count size) }
    ensures bytes_after { bytes.new ≡ put_if at (byte_count size) value bytes.old }
{
    match size {
        Size::Four => copy(&((value % 0x1_0000_0000) as u32).to_le_bytes(), bytes, at),
        Size::Eight => copy(&value.to_le_bytes(), bytes, at),
    }
}
