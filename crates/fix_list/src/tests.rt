// What nothing else here asks for: a refusal by a number that no refusal has.
use super::refuse;
use std::io;

#[test]
fn number_comes_back(rt: HostRuntime) -> io::Result<()> {
    let answer = refuse(40u8);
    assert!(rt; matches!(answer.outcome, Err(40)));
    Ok(())
}
