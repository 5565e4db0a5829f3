//! What is asked of a score.

use super::query::Query;
use notation::Mode;

/// A query, which is to be found under a mode and a limit.
#[derive(Drop)]
pub(crate) struct Asking<'a, S> {
    pub(crate) mode: Mode,
    pub(crate) query: Query<'a, S>,
    pub(crate) limit: u32,
}
