// Where the parts of a sheet stand in its text.
ghost use Rattle.std.specs.Prelude.{◌≡◌};
ghost use Rattle.sheet.specs.declared.line.Line.TheVariants.{State as StateLine, Page as PageLine, Do};

use crate::row::Row;
use crate::stage::Stage;

// The state, page and do lines. The word lines stand behind the pages.
#[derive(Clone, Copy)]
pub(crate) struct Shape<'a> {
    pub state: Row<'a>,
    pub pages: Stage<'a>,
    pub steps: Stage<'a>,
    ghost kinds: { (state.kind ≡ StateLine) × (pages.kind ≡ PageLine) × (steps.kind ≡ Do) },
}
