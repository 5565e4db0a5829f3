//! Queries moved by an interval.

ghost use Rattle.std.specs.Prelude.{◌≡◌, ℕ, ◌<◌, ◌≤◌, true, false, map, length, take, drop, is_some, Some, None, MatchOption, MatchResult};
ghost use Rattle.std.specs.List.{prefix_len};
ghost use Rattle.notation.specs.Kind.{rest};
ghost use Rattle.splitting.specs.Score.{Transposed};
ghost use Rattle.search.specs.Queries.{reaches, transpose_refusal};
ghost use Rattle.search.specs.Faults.{transpose_told};

use super::fault::TransposeFault;
use super::query::check_list;
use notation::Symbol;

// Whether there is a symbol at an interval from another.
fn has_transposed<S: Symbol>(s: S, by: i32) -> bool
    ensures { result ≡ reaches S.kind by (S.byte s) }
{
    s.transposed(by).is_some()
}

// How many notes there are before the first that has no transposed one.
fn transposable_front<S: Symbol>(query: &[S], by: i32) -> usize
    ensures { result ≡ prefix_len (reaches S.kind by) (map S.byte query.now) }
{
    query.iter().take_while(|s| has_transposed(**s, by)).count()
}

// Writes the transposed notes, of which there is one for each, into the front of a list.
fn put_transposed<S: Symbol>(query: &[S], by: i32, out: &mut [S])
    requires room { length query.now ≤ length out.old }
    requires reached { length query.now ≤ prefix_len (reaches S.kind by) (map S.byte query.now) }
    ensures moved { Transposed S.kind by (map S.byte query.now) (map S.byte (take (length query.now) out.new)) }
    ensures behind { drop (length query.now) out.new ≡ drop (length query.now) out.old }
{
    // Stays: tried `zip` with `iter_mut`, of whose writes the library tells no element.
    for (i, s) in query.iter().enumerate() {
        if let Some(moved) = s.transposed(by) {
            out[i] = moved;
        }
    }
}

/// Transposes a query by an interval into the front of a second list. What lies behind is as it
/// was, and so is the whole list where the call is refused.
pub fn transposed<S: Symbol>(query: &[S], by: i32, out: &mut [S]) -> Result<(), TransposeFault>
    ensures { MatchResult result (λ _. (transpose_refusal S.kind by (map S.byte query.now) (length out.old) ≡ None) × Transposed S.kind by (map S.byte query.now) (map S.byte (take (length query.now) out.new)) × (drop (length query.now) out.new ≡ drop (length query.now) out.old)) (λ f. (transpose_refusal S.kind by (map S.byte query.now) (length out.old) ≡ Some (transpose_told f)) × (out.new ≡ out.old)) }
{
    check_list(query, out.len())?;
    let front = transposable_front(query, by);
    if front < query.len() {
        return Err(TransposeFault::NoSymbol { note: front + 1 });
    }
    put_transposed(query, by, out);
    Ok(())
}
