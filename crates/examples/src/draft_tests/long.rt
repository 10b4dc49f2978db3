//! A draft of as many cells as early files have.
use super::{close, start_of};
use crate::refusals::refused_by;
use draft::BlockStage;
use format::judge;
use std::test::Fail;

#[test]
fn a_draft_of_31_cells(rt: HostRuntime) -> Result<(), Fail> {
    let mut buffer = vec![in rt.alloc(); 255u8; 571464]?;
    let cell = [7u8; 18432];
    let closed = match BlockStage::begin(
        buffer.as_mut_slice(),
        start_of((4, 1, 512, 31)),
        &[0; 11],
    ) {
        Ok(begun) => {
            let mut draft = begun.turn();
            for _ in 0..31 {
                let (next, outcome) = draft.lay(buffer.as_mut_slice(), &cell);
                draft = next;
                assert_eq!(rt; outcome.err().map(refused_by), None);
            }
            close(draft)
        }
        Err(fault) => Err(refused_by(fault)),
    };
    assert_eq!(rt; closed, Ok(571464));
    assert_eq!(rt; judge(buffer.as_slice()).err().map(refused_by), None);
    Ok(())
}
