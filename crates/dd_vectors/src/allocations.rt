//! Refuses the allocations of a call in turn, if the library of tests/faults/refuse.c is loaded.

use std::alloc::Global;
use std::fmt::Debug;
use std::test::Fail;

const MOST_ALLOCATIONS: u32 = 10_000;

/// A request of this many bytes and n more, which no machine has, makes the library refuse the n-th allocation after
/// it. A request of exactly this many ends that.
const BEYOND_MEMORY: usize = 1 << 62;

/// A request that any machine grants. The library refuses it if the chosen allocation was refused.
const WITNESS: usize = 1_000_003;

fn is_refused(alloc: Global, length: usize) -> bool {
    Vec::<u8>::with_capacity(alloc, length).is_err()
}

fn signal(alloc: Global, beyond: u32) -> Result<(), Fail> {
    if is_refused(alloc, BEYOND_MEMORY + beyond as usize) {
        Ok(())
    } else {
        Err("memory that no machine has was granted".into())
    }
}

/// Makes a call with each of its allocations refused in turn, until none is refused. The call gets the number of the
/// allocation to refuse, and answers whether one was.
pub fn refuse_each<C: Fn(Global, u32) -> Result<bool, Fail>>(
    alloc: Global,
    is_refused: C,
) -> Result<(), Fail>
    requires { C.IsAlwaysCallable is_refused }
{
    for chosen in 1..=MOST_ALLOCATIONS {
        if !is_refused(alloc, chosen)? {
            return Ok(());
        }
    }
    Err("the call has more allocations than are refused".into())
}

/// Makes a call with each of its allocations refused in turn. Gives the answer where none is.
pub fn refuse_in_turn<T: Drop, E: Debug + Drop, C: Fn() -> Result<T, E>, M: Fn(&E) -> bool>(
    alloc: Global,
    call: C,
    is_memory: M,
) -> Result<T, Fail>
    requires called { C.IsAlwaysCallable call }
    requires judged { M.IsAlwaysCallable is_memory }
{
    for chosen in 1..=MOST_ALLOCATIONS {
        signal(alloc, chosen)?;
        let answer = call();
        let wants_memory = match &answer {
            Ok(_) => false,
            Err(fault) => is_memory(fault),
        };
        if !was_refused(alloc, wants_memory)? {
            return Ok(answer?);
        }
    }
    Err("the call has more allocations than are refused".into())
}

/// Has the n-th allocation from here on refused, counted from 1.
pub fn refuse_allocation(alloc: Global, chosen: u32) -> Result<(), Fail> {
    signal(alloc, chosen)
}

/// Ends the refusal of allocations, and says whether one was refused.
pub fn ends_refused(alloc: Global) -> Result<bool, Fail> {
    signal(alloc, 0)?;
    Ok(is_refused(alloc, WITNESS))
}

/// Does what `ends_refused` does, and fails unless the call reported a refused allocation exactly where one was
/// refused.
pub fn was_refused(alloc: Global, wants_memory: bool) -> Result<bool, Fail> {
    let refused = ends_refused(alloc)?;
    require(
        wants_memory == refused,
        "memory is wanted exactly where it is refused",
    )?;
    Ok(refused)
}

/// Fails with this text unless the condition holds.
pub fn require(holds: bool, said: &str) -> Result<(), Fail> {
    if holds { Ok(()) } else { Err(said.into()) }
}
