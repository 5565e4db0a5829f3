//! A slip that is written and read.

use super::{PriceKind, Slip, write_slip};
use notation::{Mode, Pitch, Symbol};
use std::test::*;

#[test]
fn written_and_read(rt: HostRuntime) -> Result<(), Fail> {
    let c = Pitch::read(60).ok_or(60u8)?;
    let d = Pitch::read(62).ok_or(62u8)?;
    let asked = [c, d, Pitch::rest()];
    let mut bytes = [0u8; 512];
    assert!(rt; write_slip(3, 1, 2, &asked, &mut bytes) == Ok(512));
    let slip = Slip::<Pitch>::read(&bytes).ok().ok_or(1u8)?;
    assert!(rt; slip.limit() == 3 && slip.mode() == Mode::AnyTransposition);
    assert!(rt; slip.price() == PriceKind::ChangesThenSilence && slip.notes() == 3);
    assert!(rt; slip.note(2) == Some(d) && slip.note(4) == None);
    let query = slip.query(rt.alloc())?;
    assert!(rt; query.as_slice() == asked.as_slice());
    Ok(())
}
