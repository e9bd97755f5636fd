// A run as it lies in lent buffers.

// The words of a state, a page list, the bytes of its pages, and the words of the instructions.
#[derive(Clone, Copy)]
pub struct Parts<'a> {
    pub state: &'a [u64],
    pub pages: &'a [u64],
    pub bytes: &'a [u8],
    pub words: &'a [u64],
}
