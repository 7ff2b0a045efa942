//! Heads of files, which are what precedes their data sets.

use crate::files::vectors::{file_named, meta_of};
use dd_part10::{Meta, head_size, write_head};
use dd_vectors::{Sink, ask_all, shown};
use std::alloc::Global;
use std::test::Fail;

/// Files: the size of their heads, and the outcome of sending these.
const HEADS: &str = "\
v2 > 266, 266 [266]
v1 > 276, 276 [276]
v1 implicit > 274, 274 [274]
v1 encapsulated > 278, 278 [278]";

/// After how many bytes a writer fails that gets the head of V2.
const FAILING: &str = "\
0 > 266, 12 Write 0 [0]
100 > 266, 12 Write 100 [100]
200 > 266, 12 Write 200 [200]
265 > 266, 12 Write 265 [265]
266 > 266, 266 [266]";

/// Gives the size of the head, how many bytes went or the fault, and how many the writer holds.
fn sent(alloc: Global, meta: &Meta, bytes: &[u8], mut sink: Sink) -> Result<String, Fail> {
    sink.reserve(300)?;
    let answer = match write_head(meta, &mut sink) {
        Ok(sent) => format!(in alloc; "{sent}")?,
        Err(fault) => format!(in alloc; "{fault}")?,
    };
    if !bytes.starts_with(sink.bytes()) {
        return Err("it holds other bytes".into());
    }
    let (size, held) = (head_size(meta), sink.bytes().len());
    shown(alloc, format_args!("{size}, {answer} [{held}]"))
}

/// Sends the head of the file with this name, or that of V2 to a writer that fails after this many bytes.
fn head(alloc: Global, question: &str) -> Result<String, Fail> {
    let (name, fails) = match question.parse() {
        Ok(fails) => ("v2", Some(fails)),
        Err(_) => (question, None),
    };
    let bytes = file_named(alloc, name)?;
    let meta = meta_of(alloc, &bytes)?;
    let sink = Sink::new(alloc, fails);
    sent(alloc, &meta, &bytes, sink)
}

#[test]
fn heads_of_files(rt: HostRuntime) -> Result<(), Fail> {
    ask_all(rt.alloc(), HEADS, head)?;
    ask_all(rt.alloc(), FAILING, head)
}
