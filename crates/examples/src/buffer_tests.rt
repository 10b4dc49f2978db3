//! The moves in a buffer, and the ones that do not fit.
use buffers::{shift_down, shift_up, write_bytes, write_word, zero_bytes};

#[test]
fn moves_in_a_buffer(rt: HostRuntime) {
    let mut buf = [1, 2, 3, 4, 5, 6, 7, 8];
    assert!(rt; shift_up(&mut buf, 2, 4, 2));
    assert_eq!(rt; buf, [1, 2, 3, 4, 3, 4, 5, 6]);
    assert!(rt; shift_down(&mut buf, 4, 4, 3));
    assert_eq!(rt; buf, [1, 3, 4, 5, 6, 4, 5, 6]);
    assert!(rt; zero_bytes(&mut buf, 5, 3));
    assert!(rt; write_bytes(&mut buf, 6, &[9, 8]));
    assert_eq!(rt; buf, [1, 3, 4, 5, 6, 0, 9, 8]);
    assert!(rt; write_word(&mut buf, 0, 16909060u32));
    assert!(rt; write_word(&mut buf, 4, 1286u16));
    assert_eq!(rt; buf, [1, 2, 3, 4, 5, 6, 9, 8]);
}

#[test]
fn moves_past_the_end_change_nothing(rt: HostRuntime) {
    let mut buf = [1, 2, 3, 4];
    assert!(rt; !shift_up(&mut buf, 1, 3, 1));
    assert!(rt; !shift_up(&mut buf, 1, 1, 18446744073709551615));
    assert!(rt; !shift_down(&mut buf, 1, 2, 2));
    assert!(rt; !shift_down(&mut buf, 2, 3, 1));
    assert!(rt; !zero_bytes(&mut buf, 4, 1));
    assert!(rt; !write_bytes(&mut buf, 3, &[9, 9]));
    assert!(rt; !write_word(&mut buf, 18446744073709551615, 7u16));
    assert!(rt; !write_word(&mut buf, 1, 7u32));
    assert_eq!(rt; buf, [1, 2, 3, 4]);
}
