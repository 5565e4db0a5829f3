//! The calls of a list that change the terms, and its trials.

ghost use Rattle.std.specs.Prelude.{IfOk};
ghost use Rattle.finder.specs.Ledger.{sets, begins, ends};
ghost use Rattle.finder.specs.Trying.{CallTried, prices_of};

use super::limit::Limit;
use super::outcome::Outcome;
use super::session::Session;
use notation::{Mode, Symbol};
use price::Price;
use std::alloc::AllocError;

impl<S: Symbol> Session<S> {
    pub(crate) fn set<P: Price, R: Price>(&mut self, limit: u32, mode: Mode) -> Outcome<S, P, R>
        ensures { CallTried S.Symbol P.Price R.Price self.old (sets limit mode) self.new result }
    {
        if !self.tried.is_empty() {
            return Outcome::NoCall;
        }
        match Limit::new(limit) {
            Ok(lawful) => {
                self.terms.set(lawful, mode);
                Outcome::Done
            }
            Err(fault) => Outcome::Refused(fault.refusal()),
        }
    }

    pub(crate) fn begin<P: Price, R: Price>(
        &mut self,
        limit: u32,
    ) -> Result<Outcome<S, P, R>, AllocError>
        ensures { IfOk result (CallTried S.Symbol P.Price R.Price self.old (begins limit) self.new) }
    {
        match Limit::new(limit) {
            Ok(lawful) => {
                self.tried.push(lawful)?;
                Ok(Outcome::Done)
            }
            Err(fault) => Ok(Outcome::Refused(fault.refusal())),
        }
    }

    pub(crate) fn end<P: Price, R: Price>(&mut self) -> Outcome<S, P, R>
        ensures { CallTried S.Symbol P.Price R.Price self.old ends self.new result }
    {
        match self.tried.pop() {
            Some(_) => Outcome::Done,
            None => Outcome::NoCall,
        }
    }
}
