//! Judging at each size and version, and with gaps and tails.
use super::{Judged, judge_all};
use std::test::Fail;

static SIZES: [Judged; 37] = [
    // a version outside 1 to 32, read as a signed number
    Judged(-32768, 1, 104, 140, &[], Err((2, 1, 0, 0))),
    Judged(-1, 1, 104, 140, &[], Err((2, 1, 0, 0))),
    Judged(0, 1, 104, 140, &[], Err((2, 1, 0, 0))),
    Judged(33, 1, 104, 140, &[], Err((2, 1, 0, 0))),
    // as many bytes as the header has, and one more
    Judged(0, 1, 0, 0, &[], Err((1, 1, 0, 0))),
    Judged(0, 1, 0, 10, &[], Err((1, 1, 0, 0))),
    Judged(0, 1, 0, 11, &[], Err((2, 1, 0, 0))),
    Judged(1, 1, 10, 10, &[], Err((1, 1, 0, 0))),
    Judged(1, 1, 10, 11, &[], Err((11, 1, 0, 10))),
    Judged(2, 1, 16, 16, &[], Err((1, 1, 0, 0))),
    Judged(2, 1, 16, 17, &[], Err((11, 1, 0, 16))),
    Judged(3, 1, 24, 24, &[], Err((1, 1, 0, 0))),
    Judged(3, 1, 24, 25, &[], Err((11, 1, 0, 24))),
    Judged(4, 1, 72, 72, &[], Err((1, 1, 0, 0))),
    Judged(4, 1, 72, 73, &[], Err((11, 1, 0, 72))),
    Judged(5, 1, 100, 100, &[], Err((1, 1, 0, 0))),
    Judged(5, 1, 100, 101, &[], Err((11, 1, 0, 100))),
    Judged(6, 1, 104, 104, &[], Err((1, 1, 0, 0))),
    Judged(6, 1, 104, 105, &[], Err((11, 1, 0, 104))),
    Judged(32, 1, 104, 104, &[], Err((1, 1, 0, 0))),
    Judged(32, 1, 104, 105, &[], Err((11, 1, 0, 104))),
    // 31 cells of 512 bins of 36 bytes are 571392; one cell of one bin is 36
    Judged(1, 1, 10, 571401, &[], Err((11, 1, 0, 10))),
    Judged(1, 1, 10, 571402, &[], Ok(&[10])),
    Judged(2, 1, 16, 571407, &[], Err((11, 1, 0, 16))),
    Judged(2, 1, 16, 571408, &[], Ok(&[16])),
    Judged(3, 1, 24, 571415, &[], Err((11, 1, 0, 24))),
    Judged(3, 1, 24, 571416, &[], Ok(&[24])),
    Judged(4, 1, 72, 107, &[], Err((11, 1, 0, 72))),
    Judged(4, 1, 72, 108, &[], Ok(&[72])),
    Judged(5, 1, 100, 135, &[], Err((11, 1, 0, 100))),
    Judged(5, 1, 100, 136, &[], Ok(&[100])),
    Judged(7, 1, 104, 139, &[], Err((11, 1, 0, 104))),
    Judged(7, 1, 104, 140, &[], Ok(&[104])),
    Judged(32, 1, 104, 140, &[], Ok(&[104])),
    // a gap before the data, a tail behind them
    Judged(6, 1, 1000, 1035, &[], Err((11, 1, 0, 1000))),
    Judged(6, 1, 1000, 1036, &[], Ok(&[1000])),
    Judged(6, 1, 1000, 2000, &[], Ok(&[1000])),
];

/// A gap of five bytes before the data and a tail of three: all of it, without the tail, and one
/// byte less.
static GAPS: [Judged; 24] = [
    Judged(1, 1, 15, 571410, &[], Ok(&[15])),
    Judged(1, 1, 15, 571407, &[], Ok(&[15])),
    Judged(1, 1, 15, 571406, &[], Err((11, 1, 0, 15))),
    Judged(2, 1, 21, 571416, &[], Ok(&[21])),
    Judged(2, 1, 21, 571413, &[], Ok(&[21])),
    Judged(2, 1, 21, 571412, &[], Err((11, 1, 0, 21))),
    Judged(3, 1, 29, 571424, &[], Ok(&[29])),
    Judged(3, 1, 29, 571421, &[], Ok(&[29])),
    Judged(3, 1, 29, 571420, &[], Err((11, 1, 0, 29))),
    Judged(4, 1, 77, 116, &[], Ok(&[77])),
    Judged(4, 1, 77, 113, &[], Ok(&[77])),
    Judged(4, 1, 77, 112, &[], Err((11, 1, 0, 77))),
    Judged(5, 1, 105, 144, &[], Ok(&[105])),
    Judged(5, 1, 105, 141, &[], Ok(&[105])),
    Judged(5, 1, 105, 140, &[], Err((11, 1, 0, 105))),
    Judged(6, 1, 109, 148, &[], Ok(&[109])),
    Judged(6, 1, 109, 145, &[], Ok(&[109])),
    Judged(6, 1, 109, 144, &[], Err((11, 1, 0, 109))),
    Judged(7, 1, 109, 148, &[], Ok(&[109])),
    Judged(7, 1, 109, 145, &[], Ok(&[109])),
    Judged(7, 1, 109, 144, &[], Err((11, 1, 0, 109))),
    Judged(32, 1, 109, 148, &[], Ok(&[109])),
    Judged(32, 1, 109, 145, &[], Ok(&[109])),
    Judged(32, 1, 109, 144, &[], Err((11, 1, 0, 109))),
];

#[test]
fn sizes_and_versions(rt: HostRuntime) -> Result<(), Fail> {
    judge_all(&rt, rt.alloc(), &SIZES, "sizes")?;
    judge_all(&rt, rt.alloc(), &GAPS, "gaps")?;
    Ok(())
}
