// The number at a place of a list of bytes.
ghost use Rattle.std.specs.Prelude.{◌≡◌, ◌+◌, ◌^◌, ◌≤◌, ◌<◌, length, get_or};
ghost use Rattle.numbers.specs.Numbers.{byte_count, number_at, held};

use crate::size::Size;

// The number of 4 or 8 bytes from a place on, or none where the list ends before them.
#[tactic(auto, using(crate::proofs::Bytes::held_short))]
pub fn load(bytes: &[u8], at: usize, size: Size) -> Option<u64>
    ensures { result ≡ held bytes.now at (byte_count size) }
{
    let rest = bytes.get(at..)?;
    match size {
        Size::Four => {
            let four = rest.first_chunk::<4>()?;
            Some(u64::from(u32::from_le_bytes(*four)))
        }
        Size::Eight => {
            let eight = rest.first_chunk::<8>()?;
            Some(u64::from_le_bytes(*eight))
        }
    }
}
