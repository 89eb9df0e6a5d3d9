//! Variables, and the values of texts over them.
mod values;

use ps_lines::Memory;
use sh_arith::Env;
use std::alloc::Global;
use std::test::Fail;

/// Whether a variable that is set twice has its last text in a copy, and none where it is unset afterwards.
fn is_set_and_unset(alloc: Global) -> Result<bool, Memory> {
    let mut env = Env::new(alloc);
    let before = env.get(b"x").is_none();
    env.set(alloc, b"x", b"1")?;
    env.set(alloc, b"y", b"")?;
    env.set(alloc, b"x", b"22")?;
    let copy = env.copy(alloc)?;
    env.unset(b"x");
    env.unset(b"z");
    let unset = env.get(b"x").is_none() && env.get(b"y") == Some(b"".as_slice());
    Ok(before && unset && copy.get(b"x") == Some(b"22".as_slice()))
}

#[test]
fn variables_are_set_and_unset(rt: HostRuntime) -> Result<(), Fail> {
    assert!(rt; is_set_and_unset(rt.alloc())?);
    Ok(())
}
