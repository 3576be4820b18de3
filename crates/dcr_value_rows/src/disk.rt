// A real file, in the folder that the tests run in.
use crate::same::{same, same_bytes};
use dcr_base::{Disk, Failed, FileDisk};
use std::fs;
use std::test::Fail;

#[test]
fn a_file_is_made_written_to_and_found_again(rt: HostRuntime) -> Result<(), Fail> {
    let _ = fs::remove_file(&rt, "dcr.tape");
    let mut disk = FileDisk::new(rt.alloc(), rt.clone()?);
    same(&rt, &disk.len(), &Ok(0), "no file");
    for (at, bytes, told) in [
        (0, b"abcdef".as_slice(), Ok(())),
        (4, b"EFGH", Ok(())),
        (9, b"z", Err(Failed)),
    ] {
        same(&rt, &disk.write_at(at, bytes), &told, "a write");
        same(&rt, &disk.sync(), &Ok(()), "a sync");
    }
    let mut other = FileDisk::new(rt.alloc(), rt.clone()?);
    same(&rt, &other.len(), &Err(Failed), "a disk that has the file");
    same(
        &rt,
        &other.write_at(0, b"x"),
        &Err(Failed),
        "a disk that has the file",
    );
    drop(other);
    drop(disk);
    let bytes = fs::read(&rt, "dcr.tape")?;
    same_bytes(&rt, bytes.as_slice(), b"abcdEFGH", "the file");
    let mut disk = FileDisk::new(rt.alloc(), rt.clone()?);
    let mut buf = [b'-'; 6];
    same(&rt, &disk.read(3, &mut buf), &Ok(5), "a read");
    same_bytes(&rt, buf.as_slice(), b"dEFGH-", "a read");
    same(&rt, &disk.len(), &Ok(8), "the length");
    drop(disk);
    fs::remove_file(&rt, "dcr.tape")?;
    Ok(())
}
