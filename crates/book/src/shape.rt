//! The shape of a score, and how much of it is read.

ghost use Rattle.std.specs.Prelude.{◌<◌, ◌≤◌};
ghost use Rattle.book.specs.Shapes.{Shape as Shaped, Progress as Progressed};

use std::marker::Model;

/// The tracks and columns of a score, as its title tells them.
#[derive(Clone, Copy, Debug, PartialEq, Eq)]
pub struct Shape {
    pub(crate) tracks: u8,
    pub(crate) columns: u16,
}

impl Model for Shape {
    ghost Value = { Shaped };

    ghost view = { λ s. record { tracks = s.tracks; columns = s.columns } };

    ghost invariant = { λ s. (1 ≤ s.tracks) × (s.tracks ≤ 16) × (s.columns ≤ 4096) };

    ghost inverse = { λ s. record { tracks = s.tracks; columns = s.columns } };
}

/// A score of which some columns are read, and more are to come.
#[derive(Clone, Copy, Debug, PartialEq, Eq)]
pub struct Progress {
    pub(crate) shape: Shape,
    pub(crate) read: u16,
}

impl Model for Progress {
    ghost Value = { Progressed };

    ghost view = { λ p. record { shape = p.shape; read = p.read } };

    ghost invariant = { λ p. p.read < p.shape.columns };

    ghost inverse = { λ p. record { shape = p.shape; read = p.read } };
}
