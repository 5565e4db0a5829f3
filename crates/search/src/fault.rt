//! Why a query, a question or a transposition is refused. Faults nest as the checks do: those of
//! the query come first, then that of the list, then those of what is asked.

ghost use Rattle.std.specs.Prelude.{◌≡◌, Some};
ghost use Rattle.book.specs.Describing.{refused};
ghost use Rattle.search.specs.Faults.{query_told, list_told, question_told, transpose_told};
ghost use Rattle.search.specs.declared.fault.ListFault.TheVariants.{OfQuery};
ghost use Rattle.search.specs.declared.fault.QuestionFault.TheVariants.{OfList as QuestionList};
ghost use Rattle.search.specs.declared.fault.TransposeFault.TheVariants.{OfList as TransposeList};

use book::{Layer, Refusal};
use std::error::Error;
use std::fmt;

/// Why a query is refused.
#[derive(Clone, Copy, Debug, PartialEq, Eq)]
pub enum QueryFault {
    /// It has no notes, or more than 64.
    Length { notes: usize },
    /// One of its notes, counted from 1, is a rest.
    Rest { note: usize },
}

impl QueryFault {
    pub fn refusal(&self) -> Refusal
        ensures { result ≡ query_told self.now }
    {
        let (number, place) = match self {
            QueryFault::Length { notes } => (17, *notes),
            QueryFault::Rest { note } => (18, *note),
        };
        Refusal {
            number,
            place: place as u64,
            layer: Layer::Query,
        }
    }
}

impl fmt::Display for QueryFault {
    ghost output = { λ f. Some (refused (query_told f)) };

    fn fmt<W: fmt::Write>(&self, f: &mut fmt::Formatter<W>) -> fmt::Result {
        write!(f, "{}", self.refusal())
    }
}

impl Error for QueryFault {}

/// Why a query is refused together with the list that is to take up to one entry for each note.
#[derive(Clone, Copy, Debug, PartialEq, Eq)]
pub enum ListFault {
    /// The query is refused by itself.
    OfQuery(QueryFault),
    /// The list is shorter than the query.
    ShortList { notes: usize },
}

impl From<QueryFault> for ListFault {
    ghost from_gives = { λ f r. r ≡ OfQuery f };

    fn from(fault: QueryFault) -> ListFault {
        ListFault::OfQuery(fault)
    }
}

impl ListFault {
    pub fn refusal(&self) -> Refusal
        ensures { result ≡ list_told self.now }
    {
        match self {
            ListFault::OfQuery(fault) => fault.refusal(),
            ListFault::ShortList { notes } => Refusal {
                number: 19,
                place: *notes as u64,
                layer: Layer::Question,
            },
        }
    }
}

impl fmt::Display for ListFault {
    ghost output = { λ f. Some (refused (list_told f)) };

    fn fmt<W: fmt::Write>(&self, f: &mut fmt::Formatter<W>) -> fmt::Result {
        write!(f, "{}", self.refusal())
    }
}

impl Error for ListFault {}

/// Why a question is refused.
#[derive(Clone, Copy, Debug, PartialEq, Eq)]
pub enum QuestionFault {
    /// The query or the list is refused.
    OfList(ListFault),
    /// A sheet is shorter than the workspace size.
    ShortSheet { size: usize },
}

impl From<ListFault> for QuestionFault {
    ghost from_gives = { λ f r. r ≡ QuestionList f };

    fn from(fault: ListFault) -> QuestionFault {
        QuestionFault::OfList(fault)
    }
}

impl QuestionFault {
    pub fn refusal(&self) -> Refusal
        ensures { result ≡ question_told self.now }
    {
        match self {
            QuestionFault::OfList(fault) => fault.refusal(),
            QuestionFault::ShortSheet { size } => Refusal {
                number: 20,
                place: *size as u64,
                layer: Layer::Question,
            },
        }
    }
}

impl fmt::Display for QuestionFault {
    ghost output = { λ f. Some (refused (question_told f)) };

    fn fmt<W: fmt::Write>(&self, f: &mut fmt::Formatter<W>) -> fmt::Result {
        write!(f, "{}", self.refusal())
    }
}

impl Error for QuestionFault {}

/// Why a query is not transposed.
#[derive(Clone, Copy, Debug, PartialEq, Eq)]
pub enum TransposeFault {
    /// The query or the list is refused.
    OfList(ListFault),
    /// There is no symbol at the interval from one of the notes, counted from 1.
    NoSymbol { note: usize },
}

impl From<ListFault> for TransposeFault {
    ghost from_gives = { λ f r. r ≡ TransposeList f };

    fn from(fault: ListFault) -> TransposeFault {
        TransposeFault::OfList(fault)
    }
}

impl TransposeFault {
    pub fn refusal(&self) -> Refusal
        ensures { result ≡ transpose_told self.now }
    {
        match self {
            TransposeFault::OfList(fault) => fault.refusal(),
            TransposeFault::NoSymbol { note } => Refusal {
                number: 21,
                place: *note as u64,
                layer: Layer::Transposing,
            },
        }
    }
}

impl fmt::Display for TransposeFault {
    ghost output = { λ f. Some (refused (transpose_told f)) };

    fn fmt<W: fmt::Write>(&self, f: &mut fmt::Formatter<W>) -> fmt::Result {
        write!(f, "{}", self.refusal())
    }
}

impl Error for TransposeFault {}
