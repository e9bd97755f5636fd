// RSTORSSP: restore the saved shadow stack pointer, by the token at an address.
#![tactic(auto)]

ghost use Rattle.std.specs.Prelude.{◌≡◌};
ghost use Rattle.accesses.specs.Access.{lookup_of};
ghost use Rattle.processor.specs.Prog.{operate};
ghost use Rattle.processor.specs.Outcomes.{ended_by, step_of};
ghost use Rattle.processor.specs.Bits.{bit};
ghost use Rattle.rstorssp.specs.Rstorssp.{home as home_of, good_token, restored_flags, rstorssp as rstorssp_of};

use memory::{Size, Width};
use processor::{Fault, State, Vector, control_fault, fault};

// The address that a token must stand at.
#[tactic(auto, unfolding(crate::specs::Rstorssp::home))]
fn home(token: u64) -> u64
    ensures { result ≡ home_of token }
{
    let width = Width::Bits64;
    let below = width.minus(token - token % 2, 8);
    below - below % 8
}

// Whether the token at an address may be restored.
#[tactic(auto, unfolding(crate::specs::Rstorssp::good_token))]
fn good_token(state: State, a: u64, token: u64) -> bool
    ensures { result ≡ good_token state a token }
{
    token % 4 == state.long_bit() && (state.is_long() || token < 0x1_0000_0000) && home(token) == a
}

// CF becomes the token's bit 2; OF, SF, ZF, AF and PF are cleared.
#[tactic(auto, unfolding(crate::specs::Rstorssp::restored_flags))]
fn restored_flags(flags: u64, token: u64) -> u64
    ensures { result ≡ restored_flags flags (bit 2 token) }
{
    let of = flags - flags / 2048 % 2 * 2048;
    let sf = of - of / 128 % 2 * 128;
    let zf = sf - sf / 64 % 2 * 64;
    let af = zf - zf / 16 % 2 * 16;
    let pf = af - af / 4 % 2 * 4;
    pf - pf % 2 + token / 4 % 2
}

// `a` is the address of the token.
pub fn execute(
    state: State,
    pages: &[u64],
    bytes: &mut [u8],
    a: u64,
    span: u64,
) -> Result<State, Fault>
    ensures { step_of (ended_by state result) bytes.new ≡ operate (lookup_of pages.now bytes.old) (rstorssp_of a span state) state bytes.old }
{
    if !state.usable() {
        return Err(fault(Vector::InvalidOpcode));
    }
    if a % 8 != 0 {
        return Err(fault(Vector::Protection));
    }
    let access = state.shadow(a, Size::Eight, true);
    let token = memory::load(access, pages, bytes)?;
    if !good_token(state, a, token) {
        return Err(control_fault(4));
    }
    let previous = state.plus(state.ssp, state.long_bit() + 2);
    memory::store(access, pages, bytes, previous)?;
    Ok(State {
        ssp: a,
        flags: restored_flags(state.flags, token),
        ip: state.next(span),
        ..state
    })
}
