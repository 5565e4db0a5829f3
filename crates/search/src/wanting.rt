//! The byte that each note wants under a transposition.

ghost use Rattle.std.specs.Prelude.{◌≡◌, ℕ, ◌<◌, ◌≤◌, true, false, map, length, Some, ◌≢◌, slice_index, slice_index_or};
ghost use Rattle.notation.specs.Kind.{rest};

use notation::Symbol;

/// The byte that each note of a query wants, of at least one.
#[derive(Clone, Copy)]
pub(crate) struct Want<'a> {
    pub(crate) bytes: &'a [u8],
    ghost some: { 1 ≤ length bytes.now },
}

// Writes the byte that each note wants into the front of a list, as far as there are such bytes,
// and tells whether every note has one. A note matches exactly where its byte stands.
pub(crate) fn want_bytes<S: Symbol>(query: &[S], by: i32, want: &mut [u8]) -> bool
    requires { length query.now ≤ length want.old }
    ensures each { result ≡ true → (k : ℕ) → k < length query.now → S.kind.interval (slice_index_or (map S.byte query.now) k rest) (slice_index want.new k) ≡ Some by }
    ensures lacking { result ≡ false → (k : ℕ) × (k < length query.now) × ((b : ℕ) → S.kind.interval (slice_index_or (map S.byte query.now) k rest) b ≢ Some by) }
{
    // Stays: tried `zip` with `iter_mut`, of whose writes the library tells no element.
    for (k, s) in query.iter().enumerate() {
        let Some(moved) = s.transposed(by) else {
            return false;
        };
        want[k] = moved.write();
    }
    true
}
