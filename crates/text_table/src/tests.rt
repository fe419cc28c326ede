// What nothing else here asks for: a refusal by a number that no refusal has.
use super::refused;
use std::io;

#[test]
fn number_comes_back(rt: HostRuntime) -> io::Result<()> {
    let read = refused(40u8);
    assert!(rt; matches!(read.verdict, Err(40)));
    Ok(())
}
