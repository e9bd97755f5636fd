// What one instruction comes to: its answer and the whole state.
ghost use Rattle.std.specs.Prelude.{◌≡◌};
ghost use Rattle.processor.specs.Layout.{with_sp, with_ssp, with_flags};
ghost use Rattle.processor.specs.Outcomes.{completed, faulted as faulted_with, refused as refused_with};

use crate::state::State;
use answers::{Answer, Fault, Refusal};

// The answer, and the state: from before the operation where it faulted.
#[derive(Clone, Copy)]
pub struct Outcome {
    pub answer: Answer,
    pub state: State,
}

// How an instruction ends: registers are set on the state, which is handed back inside the outcome.
impl State {
    // It is done, and only IP moves on.
    pub fn complete(mut self, ip: u64) -> Outcome
        ensures { result ≡ completed self ip }
    {
        self.ip = ip;
        Outcome {
            answer: Answer::Completed,
            state: self,
        }
    }

    // It is done, with another SSP.
    pub fn shift(mut self, ssp: u64, ip: u64) -> Outcome
        ensures { result ≡ completed (with_ssp self ssp) ip }
    {
        self.ssp = ssp;
        self.complete(ip)
    }

    // It is done, with another SSP and other flags.
    pub fn restore(mut self, ssp: u64, flags: u64, ip: u64) -> Outcome
        ensures { result ≡ completed (with_flags (with_ssp self ssp) flags) ip }
    {
        self.flags = flags;
        self.shift(ssp, ip)
    }

    // It is done, with both stack pointers moved.
    pub fn transfer(mut self, sp: u64, ssp: u64, ip: u64) -> Outcome
        ensures { result ≡ completed (with_ssp (with_sp self sp) ssp) ip }
    {
        self.sp = sp;
        self.shift(ssp, ip)
    }

    // It faults, and the state is the one from before it.
    pub fn fail(self, fault: Fault) -> Outcome
        ensures { result ≡ faulted_with self fault }
    {
        Outcome {
            answer: Answer::Faulted(fault),
            state: self,
        }
    }

    // It is refused, and the state is the one from before it.
    pub fn refuse(self, refusal: Refusal) -> Outcome
        ensures { result ≡ refused_with self refusal }
    {
        Outcome {
            answer: Answer::Refused(refusal),
            state: self,
        }
    }
}
