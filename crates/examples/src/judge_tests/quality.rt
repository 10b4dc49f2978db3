//! Judging at each value of field 2, by which files have quality or not.
use super::{Judged, judge_all};
use std::test::Fail;

static KINDS: [Judged; 20] = [
    // field 2 is signed; 31 cells of 512 bins are 571392 bytes, with quality 634880
    Judged(1, 2, 10, 571402, &[], Ok(&[10])),
    Judged(1, 2, 10, 571401, &[], Err((11, 1, 0, 10))),
    Judged(2, -1, 16, 571408, &[], Ok(&[16])),
    Judged(2, -1, 16, 571407, &[], Err((11, 1, 0, 16))),
    Judged(2, 0, 16, 571408, &[], Ok(&[16])),
    Judged(2, 0, 16, 571407, &[], Err((11, 1, 0, 16))),
    Judged(2, 1, 16, 571408, &[], Ok(&[16])),
    Judged(2, 1, 16, 571407, &[], Err((11, 1, 0, 16))),
    Judged(2, 2, 16, 634896, &[], Ok(&[16, 0, 0, 1])),
    Judged(2, 2, 16, 634895, &[], Err((11, 1, 0, 16))),
    Judged(3, 32767, 24, 634904, &[], Ok(&[24, 0, 0, 1])),
    Judged(3, 32767, 24, 634903, &[], Err((11, 1, 0, 24))),
    Judged(4, -32768, 72, 108, &[], Ok(&[72])),
    Judged(4, -32768, 72, 107, &[], Err((11, 1, 0, 72))),
    Judged(4, 2, 72, 112, &[], Ok(&[72, 0, 0, 1])),
    Judged(4, 2, 72, 111, &[], Err((11, 1, 0, 72))),
    Judged(6, 32767, 104, 144, &[], Ok(&[104, 0, 0, 1])),
    Judged(6, 32767, 104, 143, &[], Err((11, 1, 0, 104))),
    // 31 cells of 512 bins that version 4 says
    Judged(4, 1, 72, 571464, &[(52, 512), (56, 31)], Ok(&[72])),
    Judged(
        4,
        1,
        72,
        571463,
        &[(52, 512), (56, 31)],
        Err((11, 1, 0, 72)),
    ),
];

#[test]
fn kinds_and_quality(rt: HostRuntime) -> Result<(), Fail> {
    judge_all(&rt, rt.alloc(), &KINDS, "kinds")?;
    Ok(())
}
