//! The laws are functions that can be called. What they say of printed texts is tested on the built
//! program.
use pla::laws;
use std::test::Fail;

#[test]
fn laws_can_be_called(_rt: HostRuntime) -> Result<(), Fail> {
    laws::echo_read_back();
    laws::read_back();
    laws::wider_limits();
    Ok(())
}
