//! Which queries are refused.

ghost use Rattle.std.specs.Prelude.{◌≡◌, ◌≤◌, map, length, Some, None, MatchResult};
ghost use Rattle.std.specs.List.{prefix_len};
ghost use Rattle.search.specs.Queries.{sounds, query_refusal, list_refusal};
ghost use Rattle.search.specs.Faults.{query_told, list_told};

use super::fault::{ListFault, QueryFault};
use notation::Symbol;

/// A query of 1 to 64 notes.
#[derive(Drop)]
pub(crate) struct Query<'a, S> {
    pub(crate) notes: &'a [S],
    ghost some: { 1 ≤ length notes.now },
    ghost few: { length notes.now ≤ 64 },
}

// How many notes there are before the first rest.
fn sounding_front<S: Symbol>(query: &[S]) -> usize
    ensures { result ≡ prefix_len sounds (map S.byte query.now) }
{
    query.iter().take_while(|s| s.write() != 255).count()
}

// Checks a query: its length, then that each note sounds.
pub(crate) fn check_query<S: Symbol>(query: &[S]) -> Result<Query<'_, S>, QueryFault>
    ensures { MatchResult result (λ q. (query_refusal (map S.byte query.now) ≡ None) × (q.notes.now ≡ query.now)) (λ f. query_refusal (map S.byte query.now) ≡ Some (query_told f)) }
{
    if query.len() < 1 || query.len() > 64 {
        return Err(QueryFault::Length { notes: query.len() });
    }
    let front = sounding_front(query);
    if front < query.len() {
        return Err(QueryFault::Rest { note: front + 1 });
    }
    Ok(Query { notes: query })
}

// Checks a query, and then that a list has room for one entry for each note.
pub(crate) fn check_list<S: Symbol>(query: &[S], room: usize) -> Result<Query<'_, S>, ListFault>
    ensures { MatchResult result (λ q. (list_refusal (map S.byte query.now) room ≡ None) × (q.notes.now ≡ query.now)) (λ f. list_refusal (map S.byte query.now) room ≡ Some (list_told f)) }
{
    let checked = check_query(query)?;
    if room < query.len() {
        return Err(ListFault::ShortList { notes: query.len() });
    }
    Ok(checked)
}
