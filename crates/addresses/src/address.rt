// Addresses: sums that wrap at the width, and which addresses are canonical.
ghost use Rattle.std.specs.Prelude.{◌≡◌};
ghost use Rattle.addresses.specs.Address.{wrapped, plus as plus_of, minus as minus_of, canonical as canonical_of};

// How wide the addresses of an access are: modulo 2^32 or modulo 2^64.
#[derive(Clone, Copy)]
pub enum Width {
    Bits32,
    Bits64,
}

impl Width {
    // The address that a number stands for at this width.
    #[tactic(auto, unfolding(crate::specs::Address::wrapped))]
    pub fn wrap(self, n: u64) -> u64
        ensures { result ≡ wrapped self n }
    {
        match self {
            Width::Bits32 => n % 0x1_0000_0000,
            Width::Bits64 => n,
        }
    }

    // a + b at this width.
    #[tactic(auto, using(crate::proofs::Sums::plus_wraps))]
    pub fn plus(self, a: u64, b: u64) -> u64
        ensures { result ≡ plus_of self a b }
    {
        self.wrap(a.wrapping_add(b))
    }

    // a - b at this width.
    #[tactic(auto, using(crate::proofs::Sums::minus_wraps))]
    pub fn minus(self, a: u64, b: u64) -> u64
        ensures { result ≡ minus_of self a b }
    {
        self.wrap(a.wrapping_sub(b))
    }
}

// Whether bits 63 to 47 of an address are all equal.
#[tactic(auto, unfolding(crate::specs::Address::canonical))]
pub fn canonical(address: u64) -> bool
    ensures { result ≡ canonical_of address }
{
    let top = address / 0x8000_0000_0000;
    top == 0 || top == 0x1_ffff
}
