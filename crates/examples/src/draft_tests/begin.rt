//! Drafts that are not begun, with each refusal of a begin.
use super::start_of;
use crate::refusals::{Refused, refused_by};
use draft::BlockStage;

/// A begin that is refused, by its start and the count of its values, in a buffer of that room.
#[derive(Clone, Copy)]
struct Unbegun((u16, u16, u32, u32), usize, usize, Refused);

static UNBEGUN: [Unbegun; 17] = [
    Unbegun((3, 1, 1, 1), 11, 200, (2, 5, 0, 0)),
    Unbegun((7, 1, 1, 1), 16, 200, (2, 5, 0, 0)),
    Unbegun((0, 1, 0, 0), 0, 0, (2, 5, 0, 0)),
    Unbegun((65535, 1, 1, 1), 16, 200, (2, 5, 0, 0)),
    Unbegun((4, 1, 0, 1), 11, 200, (5, 5, 0, 0)),
    Unbegun((6, 1, 32769, 8193), 0, 0, (5, 5, 0, 0)),
    Unbegun((4, 1, 1, 0), 11, 200, (6, 5, 0, 0)),
    Unbegun((5, 1, 32768, 8193), 0, 0, (6, 5, 0, 0)),
    Unbegun((4, 1, 1, 1), 10, 0, (17, 5, 0, 11)),
    Unbegun((4, 1, 1, 1), 12, 200, (17, 5, 0, 11)),
    Unbegun((4, 1, 1, 1), 16, 200, (17, 5, 0, 11)),
    Unbegun((5, 1, 1, 1), 15, 200, (17, 5, 0, 16)),
    Unbegun((6, 1, 1, 1), 11, 200, (17, 5, 0, 16)),
    Unbegun((4, 1, 32768, 8192), 11, 71, (32, 5, 0, 72)),
    Unbegun((5, 1, 1, 1), 16, 99, (32, 5, 0, 100)),
    Unbegun((6, 1, 1, 1), 16, 103, (32, 5, 0, 104)),
    Unbegun((6, 1, 1, 1), 16, 0, (32, 5, 0, 104)),
];

#[test]
fn drafts_that_are_not_begun(rt: HostRuntime) {
    for case in &UNBEGUN {
        let Unbegun(start, count, room, told) = *case;
        let mut buffer = [255u8; 200];
        let outcome = match BlockStage::begin(
            &mut buffer[..room.min(200)],
            start_of(start),
            &[7; 16][..count.min(16)],
        ) {
            Ok(draft) => {
                draft.give_up();
                None
            }
            Err(fault) => Some(refused_by(fault)),
        };
        assert_eq!(rt; outcome, Some(told));
        assert_eq!(rt; buffer, [255u8; 200]);
    }
}
