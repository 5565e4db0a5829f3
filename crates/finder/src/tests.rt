//! All calls in turn, with refusals between them.

use super::limit::Limit;
use super::limit_fault::LimitFault;
use super::score::Score;
use super::score_fault::ScoreFault;
use super::terms::Terms;
use super::trial::tried_twice;
use book::{Layer, Refusal, TooShort};
use notation::{Mode, Pitch, Symbol};
use std::test::*;

/// A call's outcome, a fault as the refusal that it tells.
fn told(outcome: Result<(), ScoreFault>) -> Result<(), Refusal> {
    outcome.map_err(|fault| fault.refusal())
}

fn refused(number: u8, place: u64, layer: Layer) -> Result<(), Refusal> {
    Err(Refusal {
        number,
        place,
        layer,
    })
}

#[test]
fn edits_in_turn(rt: HostRuntime) -> Result<(), Fail> {
    let rest = Pitch::rest();
    let c = Pitch::read(60).ok_or(60u8)?;
    let d = Pitch::read(62).ok_or(62u8)?;
    assert_eq!(rt;
        told(Score::<Pitch>::check(4, 6)),
        refused(12, 6, Layer::Score)
    );
    assert_eq!(rt; Score::<Pitch>::check(2, 6), Ok(()));
    let mut score = Score::new(2, vec![in rt.alloc(); rest; 6]?);
    assert_eq!(rt; told(score.correct(1, 1, c)), refused(15, 1, Layer::Score));
    assert_eq!(rt; told(score.append(&[c])), refused(13, 1, Layer::Score));
    assert_eq!(rt; score.append(&[c, rest]), Ok(()));
    assert_eq!(rt; score.append(&[d, c]), Ok(()));
    assert_eq!(rt; told(score.correct(2, 3, d)), refused(15, 3, Layer::Score));
    assert_eq!(rt; score.correct(2, 1, c), Ok(()));
    assert_eq!(rt; score.append(&[d, d]), Ok(()));
    assert_eq!(rt; told(score.append(&[c, c])), refused(14, 3, Layer::Score));
    assert_eq!(rt; told(score.cut(4)), refused(22, 4, Layer::Score));
    assert_eq!(rt; score.cut(2), Ok(()));
    assert_eq!(rt;
        (score.tracks(), score.capacity(), score.columns()),
        (2, 3, 2)
    );
    assert_eq!(rt;
        (score.symbol(1, 1), score.symbol(1, 2)),
        (Some(c), Some(rest))
    );
    assert_eq!(rt;
        (score.symbol(2, 1), score.symbol(2, 2)),
        (Some(c), Some(c))
    );
    assert_eq!(rt; score.symbol(3, 1), None);
    Ok(())
}

#[test]
fn fills_in_turn(rt: HostRuntime) -> Result<(), Fail> {
    let rest = Pitch::rest();
    let c = Pitch::read(60).ok_or(60u8)?;
    let mut score = Score::new(1, vec![in rt.alloc(); rest; 2]?);
    assert_eq!(rt; score.append(&[c]), Ok(()));
    assert_eq!(rt; score.append(&[rest]), Ok(()));
    let mut book = [0u8; 1024];
    assert_eq!(rt;
        score.write(&mut book[0..1023]),
        Err(TooShort { needed: 1024 })
    );
    assert_eq!(rt; book[0], 0);
    assert_eq!(rt; score.write(&mut book), Ok(1024));
    assert_eq!(rt; book[0], 72);
    let mut narrow = Score::new(2, vec![in rt.alloc(); rest; 4]?);
    assert_eq!(rt; told(narrow.fill(&book)), refused(13, 1, Layer::Score));
    let mut short = Score::new(1, vec![in rt.alloc(); rest; 1]?);
    assert_eq!(rt; told(short.fill(&book)), refused(14, 1, Layer::Score));
    let mut again = Score::new(1, vec![in rt.alloc(); rest; 3]?);
    assert_eq!(rt; again.append(&[rest]), Ok(()));
    assert_eq!(rt;
        told(again.fill(&book[0..512])),
        refused(10, 1, Layer::Book)
    );
    assert_eq!(rt; (again.columns(), again.symbol(1, 1)), (1, Some(rest)));
    assert_eq!(rt; again.fill(&book), Ok(()));
    assert_eq!(rt; again.columns(), 2);
    assert_eq!(rt;
        (again.symbol(1, 1), again.symbol(2, 1)),
        (Some(c), Some(rest))
    );
    Ok(())
}

#[test]
fn terms_in_turn(rt: HostRuntime) -> Result<(), Fail> {
    let mut terms = Terms::new();
    assert_eq!(rt;
        (terms.limit().value(), terms.mode()),
        (0, Mode::Untransposed)
    );
    let refused = Refusal {
        number: 16,
        place: 4096,
        layer: Layer::Limit,
    };
    assert_eq!(rt;
        Limit::new(4096).map_err(|fault| fault.refusal()),
        Err(refused)
    );
    terms.set(Limit::new(3)?, Mode::AnyTransposition);
    assert_eq!(rt; tried_twice(&mut terms, 5, 7), Ok(7));
    assert_eq!(rt; tried_twice(&mut terms, 5, 5), Ok(5));
    assert_eq!(rt;
        tried_twice(&mut terms, 5, 5000),
        Err(LimitFault { number: 5000 })
    );
    assert_eq!(rt; terms.limit().value(), 3);
    {
        let mut trial = terms.begin(Limit::zero());
        assert_eq!(rt; trial.terms().limit().value(), 0);
        {
            let within = trial.begin(Limit::new(9)?);
            assert_eq!(rt; within.terms().limit().value(), 9);
        }
        assert_eq!(rt; trial.terms().limit().value(), 0);
    }
    assert_eq!(rt;
        (terms.limit().value(), terms.mode()),
        (3, Mode::AnyTransposition)
    );
    Ok(())
}
