// A state in words. A further field edits the struct, this file and crates/state_words.
ghost use Rattle.std.specs.Prelude.{◌≡◌};
ghost use Rattle.processor.specs.Layout.{words_of};

use crate::state::State;

// How many fields a state has.
pub const FIELDS: usize = 10;

// The words of its fields.
impl From<State> for [u64; FIELDS] {
    ghost from_gives = { λ s w. w ≡ words_of s };

    fn from(s: State) -> [u64; FIELDS] {
        [
            s.mode, s.cpl, s.cet, s.ucet, s.scet, s.ip, s.sp, s.ssp, s.flags, s.limit,
        ]
    }
}
