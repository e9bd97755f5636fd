// Copying a piece over a list from a place on.
ghost use Rattle.std.specs.Prelude.{◌≡◌, length};
ghost use Rattle.numbers.specs.Numbers.{inside};
ghost use Rattle.numbers.specs.Buffers.{laid_if};

// Whether n elements from a place on lie within a list of this length.
#[tactic(auto, unfolding(crate::specs::Numbers::inside))]
pub fn has_room(lent: usize, at: usize, n: usize) -> bool
    ensures { result ≡ inside lent at n }
{
    at <= lent && n <= lent - at
}

// Copies a piece over a list from a place on, or nothing where it does not fit; and says which.
#[tactic(auto, unfolding(crate::specs::Numbers::inside), using(crate::proofs::BufferLaws::laid_unless, crate::proofs::BufferLaws::copied))]
pub fn copy<T: Copy>(piece: &[T], out: &mut [T], at: usize) -> bool
    ensures value { result ≡ inside (length out.old) at (length piece.now) }
    ensures out_after { out.new ≡ laid_if out.old at piece.now }
{
    if !has_room(out.len(), at, piece.len()) {
        return false;
    }
    out[at..at + piece.len()].copy_from_slice(piece);
    true
}
