//! What a terminal gets to show progress.

use crate::calls::told;
use dd_vectors::{claim_all, cut};
use std::alloc::Global;
use std::test::Fail;

// Each line has calls, and after ` >` what they wrote to the terminal: `<` goes back to the start of the line, and
// `^[K` erases it from there on. `pass N` lets N milliseconds pass. After `slow N` the disc takes N milliseconds to
// store a file.
const CASES: &str = "\
reading 3, pass 499, advance, hide >
reading 3, pass 500, advance, hide, hide > <reading 1 of 3^[K<^[K
reading 3, pass 600, advance, advance, pass 99, advance > <reading 1 of 3^[K
reading 3, pass 600, advance, pass 100, advance, hide > <reading 1 of 3^[K<reading 2 of 3^[K<^[K
reading 3, pass 600, advance, hide, pass 100, advance > <reading 1 of 3^[K<^[K<reading 2 of 3^[K
reading 2, pass 600, copying 20000, advance, pass 100, advance > <copying 0 of 20000^[K<copying 2 of 20000^[K
reading 3, pass 600, quiet, advance, hide >
reading 3, pass 600, advance, quiet, pass 100, advance, hide > <reading 1 of 3^[K<^[K
reading 3, pass 600, advance, say word, say word, quiet, say word > <reading 1 of 3^[K<^[Kword!|word!|word!|
reading 3, keep one, pass 600, advance, keep two, kept, say word, kept > <reading 1 of 3^[K<^[Kone!|two!|word!|
quiet, reading 3, pass 600, advance >
reading 3, pass 600, fail show, advance, pass 100, advance > <reading 2 of 3^[K
reading 3, pass 600, pause show, advance > <reading 1 of 3^[K
reading 3, pass 600, fail clock, advance, advance > <reading 2 of 3^[K
copying 9, create a, finish, create b, finish, pass 600, batch, store > <storing 0 of 9^[K
copying 9, create a, finish, create b, finish, pass 600, slow 100, batch, store > \
<storing 0 of 9^[K<storing 1 of 9^[K
copying 9, create a, finish, slow 100, batch, store, pass 500, create b, finish, store > <storing 1 of 9^[K
reading 12, pass 9999, advance, pass 100, advance, hide > <reading 1 of 12^[K<reading 2 of 12, 50 s left^[K<^[K
reading 40, pass 10000, advance > <reading 1 of 40, 6 min left^[K
reading 999, pass 10000, advance > <reading 1 of 999, 2 h left^[K
copying 9, create a, finish, slow 600, batch, store, advance > <copying 1 of 9^[K";

fn is_right(alloc: Global, case: &str) -> Result<bool, Fail> {
    let (calls, shown) = cut(case, " >")?;
    let (_said, disc) = told(alloc, calls)?;
    Ok(disc.screen.text.as_str() == shown.trim_start())
}

#[test]
fn shows_progress_in_one_line(rt: HostRuntime) -> Result<(), Fail> {
    claim_all(rt.alloc(), CASES, '\n', is_right)
}
