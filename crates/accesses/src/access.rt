// An access, and whether it can be done.
ghost use Rattle.std.specs.Prelude.{◌≡◌};
ghost use Rattle.pages.specs.Pages.{spot};
ghost use Rattle.accesses.specs.Access.{kind_number, canonical_bytes, probe as probe_of};

use crate::reach::{Failure, canonical_byte, listed_byte, scan};
use addresses::Width;
use numbers::Size;

// The three kinds of page.
#[derive(Clone, Copy)]
pub enum Kind {
    UserShadow,
    SupervisorShadow,
    Ordinary,
}

// A load or a store, before it is done. No answer depends on `store` or `user`; a page fault's error code reports
// them, and an access through a gate is made with the privilege of its moment.
#[derive(Clone, Copy)]
pub struct Access {
    // The first byte's address. The others follow, and wrap at the width.
    pub first: u64,
    pub kind: Kind,
    // Whether it counts as a store: a locked load does.
    pub store: bool,
    // Whether it is made with user privilege.
    pub user: bool,
    pub size: Size,
    pub width: Width,
    // Whether every byte's address must be canonical.
    pub canonical: bool,
}

// The number that an entry has for the kind.
impl From<Kind> for u64 {
    ghost from_gives = { λ kind n. n ≡ kind_number kind };

    fn from(kind: Kind) -> u64 {
        match kind {
            Kind::UserShadow => 1,
            Kind::SupervisorShadow => 2,
            Kind::Ordinary => 3,
        }
    }
}

impl Access {
    // Canonical addresses are a matter of the access alone, so no page is handed on.
    #[tactic(auto, unfolding(crate::specs::Access::canonical_bytes))]
    fn canonical_bytes(self) -> Result<(), Failure>
        ensures { result ≡ canonical_bytes self }
    {
        if self.canonical {
            scan(canonical_byte, self.width, self.first, self.size.bytes())
        } else {
            Ok(())
        }
    }

    // Tries every byte by itself. `lent` is how many bytes are lent; none is looked at.
    #[tactic(auto, unfolding(crate::specs::Access::probe, crate::specs::Access::listed_bytes))]
    pub fn try_each(self, pages: &[u64], lent: usize) -> Result<(), Failure>
        ensures { result ≡ probe_of (spot pages.now lent) self }
    {
        self.canonical_bytes()?;
        let kind = u64::from(self.kind);
        scan(
            move |address| listed_byte(pages, lent, kind, address),
            self.width,
            self.first,
            self.size.bytes(),
        )
    }
}
