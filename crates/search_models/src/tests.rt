// What nothing else here asks for: a refusal by a number that no refusal has.
use super::ended;
use program::Outcome;
use std::io;

#[test]
fn number_comes_back(rt: HostRuntime) -> io::Result<()> {
    let answer = ended(Err::<Outcome, u8>(40), 3, 4);
    assert!(rt; matches!(answer.outcome, Err(40)));
    Ok(())
}
