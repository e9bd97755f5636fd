// A state from its words: what words make, and whether it is in range.
#![tactic(auto)]

ghost use Rattle.std.specs.Prelude.{◌≡◌};
ghost use Rattle.state_words.specs.Formed.{formed as formed_of, good_state};

use processor::State;

// The state whose fields are these words, in the order of the rules; none where they are not as many. A function and no `TryFrom`, which
// could stand only in the crate of `State`.
#[tactic(auto, unfolding(crate::specs::Formed::formed, processor::specs::Layout::state_of))]
pub fn state_of(words: &[u64]) -> Option<State>
    ensures { result ≡ formed_of words.now }
{
    let &[mode, cpl, cet, ucet, scet, ip, sp, ssp, flags, limit] = words else {
        return None;
    };
    Some(State {
        mode,
        cpl,
        cet,
        ucet,
        scet,
        ip,
        sp,
        ssp,
        flags,
        limit,
    })
}

// Whether words make a state whose fields are all in their ranges.
#[tactic(auto, unfolding(crate::specs::Formed::good_state))]
pub fn good_state(words: &[u64]) -> bool
    ensures { result ≡ good_state words.now }
{
    state_of(words).is_some_and(|state| state.in_range())
}
