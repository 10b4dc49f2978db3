//! Looking at a block as a kind.
use super::{FILL, seen_or};
use crate::example_file;
use crate::files::put;
use crate::questions::Numbers;
use crate::refusals::Refused;
use kinds::Kind;
use reader::JudgedFile;
use records::{Fill, Loca};
use std::test::Fail;

/// Looks at a block of a file as a kind: text, length and bytes used.
fn look<K: Kind>(bytes: &[u8], number: usize) -> Result<Numbers, Refused> {
    seen_or(JudgedFile::of(bytes).look::<K>(number))
}

#[test]
fn blocks_are_looked_at(rt: HostRuntime) -> Result<(), Fail> {
    let mut file = example_file();
    assert_eq!(rt; look::<Fill>(&file, 1), Ok([112, 0, 4, 0]));
    assert_eq!(rt; look::<Loca>(&file, 1), Err((12, 4, 1, 104)));
    assert_eq!(rt; look::<Fill>(&file, 3), Err((34, 5, 0, 0)));
    assert_eq!(rt; JudgedFile::of(&file).look::<Fill>(1)?.record, FILL);
    put(&mut file, 116, *b"FILL");
    assert_eq!(rt; look::<Fill>(&file, 2), Err((13, 4, 2, 124)));
    Ok(())
}
