// The processor's state: ten numbers, and what the rules read off them.
ghost use Rattle.std.specs.Prelude.{◌≡◌};
ghost use Rattle.processor.specs.State.{is_long, long_bit, width_of, plus as plus_of, minus as minus_of, user_mode, register as register_of, enabled as enabled_of, usable as usable_of, permitted as permitted_of, next as next_of, fixed_fit, cet_fits, pointers_fit, in_range as in_range_of};
ghost use Rattle.processor.specs.Accesses.{access_of, shadow as shadow_of, ordinary as ordinary_of};

use memory::{Access, Kind, Size, Width};

// All fields are whole numbers of 64 bits, so that any state can be handed in and refused.
#[derive(Clone, Copy)]
pub struct State {
    // 0 real or virtual-8086, 1 32-bit protected or compatibility, 2 64-bit.
    pub mode: u64,
    pub cpl: u64,
    // CR4.CET.
    pub cet: u64,
    // IA32_U_CET and IA32_S_CET: bit 0 is SH_STK_EN, bit 1 WR_SHSTK_EN.
    pub ucet: u64,
    pub scet: u64,
    pub ip: u64,
    pub sp: u64,
    pub ssp: u64,
    // RFLAGS.
    pub flags: u64,
    // The code segment's limit.
    pub limit: u64,
}

// Whether a CET register holds what it may: any number.
#[tactic(auto, unfolding(crate::specs::State::cet_fits))]
fn cet_fits(register: u64) -> bool
    ensures { result ≡ cet_fits register }
{
    true
}

impl State {
    pub fn is_long(self) -> bool
        ensures { result ≡ is_long self }
    {
        self.mode == 2
    }

    // 1 in 64-bit mode, else 0.
    pub fn long_bit(self) -> u64
        ensures { result ≡ long_bit self }
    {
        if self.is_long() { 1 } else { 0 }
    }

    fn width(self) -> Width
        ensures { result ≡ width_of self }
    {
        if self.is_long() {
            Width::Bits64
        } else {
            Width::Bits32
        }
    }

    // a + b, as pointers of this mode.
    #[tactic(auto, unfolding(crate::specs::State::plus))]
    pub fn plus(self, a: u64, b: u64) -> u64
        ensures { result ≡ plus_of self a b }
    {
        self.width().plus(a, b)
    }

    // a - b, as pointers of this mode.
    #[tactic(auto, unfolding(crate::specs::State::minus))]
    pub fn minus(self, a: u64, b: u64) -> u64
        ensures { result ≡ minus_of self a b }
    {
        self.width().minus(a, b)
    }

    fn is_user(self) -> bool
        ensures { result ≡ user_mode self }
    {
        self.cpl == 3
    }

    // The CET register of this CPL.
    fn register(self) -> u64
        ensures { result ≡ register_of self }
    {
        if self.is_user() { self.ucet } else { self.scet }
    }

    // Whether the shadow stack is enabled.
    #[tactic(auto, unfolding(crate::specs::State::enabled))]
    pub fn enabled(self) -> bool
        ensures { result ≡ enabled_of self }
    {
        self.cet == 1 && self.register() % 2 == 1
    }

    // Whether the shadow stack operations are recognised: never in mode 0.
    #[tactic(auto, unfolding(crate::specs::State::usable))]
    pub fn usable(self) -> bool
        ensures { result ≡ usable_of self }
    {
        self.mode != 0 && self.enabled()
    }

    // Whether WRSS is permitted at this CPL.
    #[tactic(auto, unfolding(crate::specs::State::permitted))]
    pub fn permitted(self) -> bool
        ensures { result ≡ permitted_of self }
    {
        self.register() / 2 % 2 == 1
    }

    // The address of the next instruction.
    #[tactic(auto, unfolding(crate::specs::State::next))]
    pub fn next(self, span: u64) -> u64
        ensures { result ≡ next_of self span }
    {
        self.plus(self.ip, span)
    }

    // An access of this mode and privilege: in 64-bit mode its bytes must be canonical.
    fn access(self, kind: Kind, first: u64, size: Size, store: bool) -> Access
        ensures { result ≡ access_of self kind first size store }
    {
        Access {
            kind,
            store,
            user: self.is_user(),
            first,
            size,
            width: self.width(),
            canonical: self.is_long(),
        }
    }

    // An access to the shadow stack of this CPL.
    pub fn shadow(self, first: u64, size: Size, store: bool) -> Access
        ensures { result ≡ shadow_of self first size store }
    {
        let kind = if self.is_user() {
            Kind::UserShadow
        } else {
            Kind::SupervisorShadow
        };
        self.access(kind, first, size, store)
    }

    // An access to ordinary memory.
    pub fn ordinary(self, first: u64, size: Size, store: bool) -> Access
        ensures { result ≡ ordinary_of self first size store }
    {
        self.access(Kind::Ordinary, first, size, store)
    }

    // Whether mode, CPL, CR4.CET and the code limit are in their ranges.
    #[tactic(auto, unfolding(crate::specs::State::fixed_fit))]
    fn fixed_fit(self) -> bool
        ensures { result ≡ fixed_fit self }
    {
        self.mode <= 2 && self.cpl <= 3 && self.cet <= 1 && self.limit < 0x1_0000_0000
    }

    // Whether IP, SP and SSP are in their ranges.
    #[tactic(auto, unfolding(crate::specs::State::pointers_fit))]
    fn pointers_fit(self) -> bool
        ensures { result ≡ pointers_fit self }
    {
        self.ssp % 4 == 0
            && (self.is_long()
                || self.ip < 0x1_0000_0000 && self.sp < 0x1_0000_0000 && self.ssp < 0x1_0000_0000)
    }

    // Whether every field is in its range; if not, the state gets refusal 5.
    #[tactic(auto, unfolding(crate::specs::State::in_range))]
    pub fn in_range(self) -> bool
        ensures { result ≡ in_range_of self }
    {
        self.fixed_fit() && cet_fits(self.ucet) && cet_fits(self.scet) && self.pointers_fit()
    }
}
