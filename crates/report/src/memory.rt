//! Memory for the score that a book holds.

ghost use Rattle.std.specs.Prelude.{◌≡◌, ◌*◌, ◌≤◌, IfOk, vec_len};
ghost use Rattle.report.specs.Tracks.{room_for, lawful_tracks};

use notation::Symbol;
use std::alloc::{AllocError, Global};

// Memory for a score of 1 to 16 tracks: as many whole columns as 4,096 symbols make.
#[derive(Drop)]
pub(crate) struct Memory<S> {
    pub(crate) tracks: usize,
    pub(crate) symbols: Vec<S>,
    ghost some_track: { 1 ≤ tracks },
    ghost few_tracks: { tracks ≤ 16 },
    ghost whole: { vec_len symbols ≡ room_for tracks * tracks },
}

impl<S: Symbol> Memory<S> {
    // Memory for the tracks that a book names, or for one track where it names no lawful number.
    pub(crate) fn new(heap: Global, named: u8) -> Result<Memory<S>, AllocError>
        ensures { IfOk result (λ m. m.tracks ≡ lawful_tracks named) }
    {
        let tracks = lawful_tracks(named);
        let symbols = vec![in heap; S::rest(); 4096 / tracks * tracks]?;
        Ok(Memory { tracks, symbols })
    }
}

fn lawful_tracks(named: u8) -> usize
    ensures { result ≡ lawful_tracks named }
{
    if named >= 1 && named <= 16 {
        usize::from(named)
    } else {
        1
    }
}
