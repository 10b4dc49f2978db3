//! Each check of judging at both sides of its edge, and the blocks of file M.
use super::{Judged, judge_all, layout_of};
use crate::files::{File, lay_file, put};
use crate::questions::{Answer, told, wanted};
use std::test::Fail;

static EDGES: [Judged; 27] = [
    // an extent that ends before the header does: below version 6 the last of them cannot but be
    // negative
    Judged(1, 1, 10, 571402, &[(6, 4294967295)], Err((3, 2, 0, 6))),
    Judged(6, 1, 104, 140, &[(6, 93)], Err((3, 2, 0, 6))),
    Judged(6, 1, 104, 140, &[(12, 87)], Err((3, 2, 0, 12))),
    Judged(6, 1, 104, 140, &[(20, 79)], Err((3, 2, 0, 20))),
    Judged(6, 1, 104, 140, &[(68, 31)], Err((3, 2, 0, 68))),
    Judged(6, 1, 104, 140, &[(96, 3)], Err((3, 2, 0, 96))),
    Judged(7, 1, 104, 140, &[(96, 2147483648)], Err((3, 2, 0, 96))),
    // an extent that leads elsewhere
    Judged(6, 1, 104, 140, &[(12, 89)], Err((4, 2, 0, 12))),
    Judged(6, 1, 104, 140, &[(20, 81)], Err((4, 2, 0, 20))),
    Judged(6, 1, 104, 140, &[(68, 33)], Err((4, 2, 0, 68))),
    Judged(6, 1, 104, 140, &[(96, 5)], Err((4, 2, 0, 96))),
    Judged(6, 1, 104, 140, &[(6, 95)], Err((4, 2, 0, 12))),
    // bins from 1 to 32768 of 36 bytes
    Judged(4, 1, 72, 1179720, &[(52, 0)], Err((5, 2, 0, 52))),
    Judged(4, 1, 72, 1179720, &[(52, 32768)], Ok(&[72])),
    Judged(4, 1, 72, 1179720, &[(52, 32769)], Err((5, 2, 0, 52))),
    // cells from 1 to 8192 of 36 bytes
    Judged(4, 1, 72, 294984, &[(56, 0)], Err((6, 2, 0, 56))),
    Judged(4, 1, 72, 294984, &[(56, 8192)], Ok(&[72])),
    Judged(4, 1, 72, 294984, &[(56, 8193)], Err((6, 2, 0, 56))),
    // three channels from version 5 on; below, byte 88 is one of the data
    Judged(5, 1, 100, 136, &[(88, 2)], Err((7, 2, 0, 88))),
    Judged(5, 1, 100, 136, &[(88, 4)], Err((7, 2, 0, 88))),
    Judged(4, 1, 72, 108, &[(88, 4)], Ok(&[72])),
    // a section up to the data
    Judged(6, 1, 112, 148, &[(100, 8)], Ok(&[112, 8, 1])),
    Judged(6, 1, 112, 148, &[(100, 9)], Err((8, 2, 0, 100))),
    Judged(5, 1, 104, 140, &[(100, 9)], Ok(&[104])),
    // a block's head within the section
    Judged(6, 1, 112, 148, &[(100, 7)], Err((9, 3, 1, 104))),
    Judged(6, 1, 124, 160, &[(100, 15)], Err((9, 3, 2, 112))),
    Judged(6, 1, 124, 160, &[(100, 16)], Ok(&[124, 16, 2])),
];

#[test]
fn each_check_at_its_edge(rt: HostRuntime) -> Result<(), Fail> {
    judge_all(&rt, rt.alloc(), &EDGES, "edges")?;
    Ok(())
}

/// File M with other sizes of its two blocks, and what judging answers.
#[derive(Clone, Copy)]
struct OfM(u32, u32, Answer);

#[test]
fn blocks_of_the_example(rt: HostRuntime) {
    let table = [
        OfM(4, 0, Ok(&[124, 20, 2])),
        OfM(13, 0, Err((10, 3, 1, 108))),
        OfM(12, 0, Ok(&[124, 20, 1])),
        OfM(5, 0, Err((9, 3, 2, 117))),
        OfM(4, 1, Err((10, 3, 2, 120))),
    ];
    for OfM(first, second, answer) in table {
        let mut bytes = [0u8; 160];
        let _ = lay_file(&mut bytes, File::M);
        put(&mut bytes, 108, first.to_be_bytes());
        put(&mut bytes, 120, second.to_be_bytes());
        assert_eq!(rt; told(layout_of(&bytes)), wanted(answer), "{first}");
    }
}
