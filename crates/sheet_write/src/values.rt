// The values of 8 bytes that the pages hold.
ghost use Rattle.std.specs.Prelude.{◌≡◌, ◌+◌, ◌/◌, ◌≤◌, length, drop};
ghost use Rattle.numbers.specs.Numbers.{number_at};
ghost use Rattle.sheet_write.specs.Values.{nonzeros};

use numbers::Size;

// How many bytes a value has.
pub(crate) const VALUE_BYTES: usize = 8;

// The value that lies at a place.
pub(crate) fn value_at(bytes: &[u8], at: usize) -> u64
    requires { at + 8 ≤ length bytes.now }
    ensures { result ≡ number_at (drop at bytes.now) 0 8 }
{
    numbers::load(bytes, at, Size::Eight).unwrap()
}

// How many of the values are not 0.
pub(crate) fn nonzero(bytes: &[u8]) -> usize
    ensures { result ≡ nonzeros (length bytes.now / 8) bytes.now }
{
    bytes
        .chunks_exact(VALUE_BYTES)
        .filter(|value| value_at(value, 0) != 0)
        .count()
}
