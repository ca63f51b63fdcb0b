use kept_lines::{Journal, OpenRefusal, open_journal};
use std::fs::{self, OpenOptions};
use std::os::unix::fs::FileExt;
use std::test::Fail;

const HEAD: &[u8] = b"a protocol\nrole R\n";

/// Whether the file holds these lines, and is held while they are read.
fn has_lines(rt: &HostRuntime, path: &str, lines: &[u8]) -> Result<bool, Fail> {
    let opened = open_journal(rt, path, HEAD)?;
    let is_held = matches!(open_journal(rt, path, HEAD), Err(OpenRefusal::InUse));
    Ok(is_held && opened.lines() == lines)
}

/// Whether a file with these bytes is refused, and stays as it is.
fn is_left_alone(rt: &HostRuntime, path: &str, bytes: &[u8]) -> Result<bool, Fail> {
    fs::write(rt, path, bytes)?;
    let opened = open_journal(rt, path, HEAD);
    let is_refused = matches!(opened, Err(OpenRefusal::AnotherJournal));
    Ok(is_refused && fs::read(rt, path)?.as_slice() == bytes)
}

#[test]
fn lines_are_there_again(rt: HostRuntime) -> Result<(), Fail> {
    let path = "kept_lines_again";
    let _ = fs::remove_file(&rt, path);
    assert!(rt; has_lines(&rt, path, b"")?);
    let mut journal = open_journal(&rt, path, HEAD)?.begin(rt.alloc(), true)?;
    assert!(rt; journal.keep(b"a\n").is_ok());
    assert!(rt; journal.keep(b"b\nc\n").is_ok());
    assert!(rt; journal.keep(b"d\0\n").is_err());
    assert!(rt; journal.keep(b"e\n").is_err());
    drop(journal);
    assert_eq!(rt; fs::metadata(&rt, path)?.len(), 18 + 8_388_608);
    let file = OpenOptions::new().write(true).open(&rt, path)?;
    file.write_all_at(b"begun", 24)?;
    drop(file);
    assert!(rt; has_lines(&rt, path, b"a\nb\nc\n")?);
    drop(open_journal(&rt, path, HEAD)?.begin(rt.alloc(), false)?);
    assert!(rt; fs::read(&rt, path)?.as_slice() == b"a protocol\nrole R\na\nb\nc\n".as_slice());
    fs::remove_file(&rt, path)?;
    Ok(())
}

#[test]
fn other_files_are_left_alone(rt: HostRuntime) -> Result<(), Fail> {
    let path = "kept_lines_other";
    assert!(rt; is_left_alone(&rt, path, b"a protocol\nrole S\na\n")?);
    assert!(rt; is_left_alone(&rt, path, b"no line")?);
    assert!(rt; is_left_alone(&rt, path, b"\0 begins with a 0, and is longer")?);
    for begun in [
        b"a prot".as_slice(),
        b"a p\0o".as_slice(),
        b"a protocol\nrole R".as_slice(),
    ] {
        fs::write(&rt, path, begun)?;
        assert!(rt; has_lines(&rt, path, b"")?);
        assert!(rt; fs::read(&rt, path)?.as_slice() == HEAD);
    }
    fs::remove_file(&rt, path)?;
    assert!(rt; matches!(open_journal(&rt, ".", HEAD), Err(OpenRefusal::Failed(_))));
    Ok(())
}
