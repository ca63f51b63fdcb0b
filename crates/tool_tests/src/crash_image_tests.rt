use kept_lines::{Journal, MemJournal, text_len};
use std::test::Fail;

/// The begun bytes that reached the disk, the zeros behind them, and the text that a crash leaves.
const IMAGES: &[(&[bool], usize, &[u8])] = &[
    (&[], 0, b"a\nb\n"),
    (&[], 3, b"a\nb\n"),
    (&[true, true], 0, b"a\nb\n"),
    (&[true, true, true], 1, b"a\nb\ncd\n"),
    (&[true, true, true, true, true], 0, b"a\nb\ncd\ne\n"),
    (&[true, true, true, false, true], 2, b"a\nb\ncd\n"),
    (&[false, true, true, true, true], 0, b"a\nb\n"),
    (&[true, false, true, true, true, true], 0, b"a\nb\n"),
];

#[test]
fn crashes_leave_kept_lines(rt: HostRuntime) -> Result<(), Fail> {
    let mut journal = MemJournal::new(rt.alloc(), 2);
    assert!(rt; journal.keep(b"a\n").is_ok());
    assert!(rt; journal.keep(b"b\n").is_ok());
    assert!(rt; journal.keep(b"cd\ne\n").is_err());
    for (reached, zeros, text) in IMAGES {
        let image = journal.crash_image(rt.alloc(), reached, *zeros)?;
        let left = &image.as_slice()[..text_len(image.as_slice())];
        assert!(rt; left == *text);
    }
    Ok(())
}
