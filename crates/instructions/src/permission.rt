// The permission bits of WRSS: taken away before an operation, put back after it.
ghost use Rattle.std.specs.Prelude.{◌+◌, ◌≡◌};
ghost use Rattle.instructions.specs.Permission.{write_bit, without_write, hidden as hidden_of, shown as shown_of};

use processor::State;

// Bit 1 of a CET register, as 0 or 2.
#[tactic(auto, unfolding(crate::specs::Permission::write_bit))]
fn write_bit(register: u64) -> u64
    ensures { result ≡ write_bit register }
{
    register / 2 % 2 * 2
}

// A CET register without it.
#[tactic(auto, unfolding(crate::specs::Permission::write_bit, crate::specs::Permission::without_write))]
fn without_write(register: u64) -> u64
    ensures { result ≡ without_write register }
{
    register - write_bit(register)
}

// A CET register with that bit of another.
#[tactic(auto, unfolding(crate::specs::Permission::write_bit, crate::specs::Permission::without_write))]
fn with_write(register: u64, from: u64) -> u64
    ensures { result ≡ without_write register + write_bit from }
{
    without_write(register) + write_bit(from)
}

// The state as operations see it.
#[tactic(auto, unfolding(crate::specs::Permission::hidden))]
pub fn hidden(state: State) -> State
    ensures { result ≡ hidden_of state }
{
    State {
        ucet: without_write(state.ucet),
        scet: without_write(state.scet),
        ..state
    }
}

// A state with the permission bits of another.
#[tactic(auto, unfolding(crate::specs::Permission::shown))]
pub fn shown(from: State, state: State) -> State
    ensures { result ≡ shown_of from state }
{
    State {
        ucet: with_write(state.ucet, from.ucet),
        scet: with_write(state.scet, from.scet),
        ..state
    }
}
