//! Lines of digests, as `sha256sum` writes them.
use std::test::Fail;

#[test]
fn a_plain_name(rt: HostRuntime) -> Result<(), Fail> {
    let line = checksum::line(rt.alloc(), &[0x00, 0x9f, 0xa0, 0xff], b"a file")?;
    assert!(rt; line.as_slice() == b"009fa0ff  a file\n".as_slice());
    Ok(())
}

#[test]
fn a_name_that_would_break_the_line(rt: HostRuntime) -> Result<(), Fail> {
    let line = checksum::line(rt.alloc(), &[0x12], b"a\\b\nc\rd")?;
    assert!(rt; line.as_slice() == b"\\12  a\\\\b\\nc\\rd\n".as_slice());
    Ok(())
}

#[test]
fn nothing_at_all(rt: HostRuntime) -> Result<(), Fail> {
    let line = checksum::line(rt.alloc(), b"", b"")?;
    assert!(rt; line.as_slice() == b"  \n".as_slice());
    Ok(())
}
