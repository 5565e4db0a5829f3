//! The sheets that a search works on.

ghost use Rattle.std.specs.Prelude.{◌≡◌, ◌&&◌, nat_le};

use price::Entry;

/// Three sheets that are lent to a question: for the prices of the rows, for the steps of the rows,
/// and for the window.
#[derive(Drop)]
pub(crate) struct Sheets<'a, P> {
    pub(crate) prices: &'a mut [Option<P>],
    pub(crate) steps: &'a mut [u32],
    pub(crate) window: &'a mut [Entry<P>],
}

/// How long each of the three sheets is.
#[derive(Clone, Copy)]
pub(crate) struct Lengths {
    pub(crate) prices: usize,
    pub(crate) steps: usize,
    pub(crate) window: usize,
}

impl Lengths {
    /// Whether each of them has room for a workspace.
    pub(crate) fn hold(self, size: usize) -> bool
        ensures { result ≡ (nat_le size self.prices && nat_le size self.window && nat_le size self.steps) }
    {
        size <= self.prices && size <= self.window && size <= self.steps
    }
}
