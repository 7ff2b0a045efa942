use crate::sets::spellings::{PATIENT_ID, nested, set_of, spelled};
use dd_elem::{Tag, Vr};
use dd_set::{DataSet, Element, Syntax, Value, WriteFault, send, send_header, write_set};
use dd_vectors::{Sink, ask_all, bytes_of, tag_of};
use std::alloc::Global;
use std::test::Fail;

/// Data sets; how many bytes went, and how many the writer holds.
const SENT: &str = "\
explicit 10002000 4c4f 0200 5031 > 10 [10]
explicit ' > 0 [0]
explicit 08004011 5351 0000 12000000 feff00e0 0a000000 10002000 4c4f 0200 5031 > 30 [30]
explicit 08004011 5351 0000 ffffffff feff00e0 ffffffff 10002000 4c4f 0200 5031 \
feff0de0 00000000 feffdde0 00000000 > 46 [46]
explicit 09000110 554e 0000 ffffffff feff00e0 ffffffff 10002000 02000000 5031 \
feff0de0 00000000 feffdde0 00000000 > 46 [46]
implicit 08004011 ffffffff feff00e0 0a000000 10002000 02000000 5031 feffdde0 00000000 > \
34 [34]";

/// Pixel data in fragments: two, none at all, an empty offset table alone and one that is not empty. Then two in an
/// item of each form of length, and two before a sequence. Last pixel data that is bytes, items in Implicit VR, and one
/// other element.
const FRAGMENTS: &str = "\
encapsulated e07f1000 4f42 0000 ffffffff feff00e0 00000000 feff00e0 04000000 ff4fff51 feffdde0 00000000 > \
40 [40]
encapsulated e07f1000 4f42 0000 ffffffff feffdde0 00000000 > 20 [20]
encapsulated e07f1000 4f42 0000 ffffffff feff00e0 00000000 feffdde0 00000000 > 28 [28]
encapsulated e07f1000 4f42 0000 ffffffff feff00e0 04000000 00000000 feffdde0 00000000 > 32 [32]
encapsulated 08004011 5351 0000 ffffffff feff00e0 ffffffff e07f1000 4f42 0000 ffffffff \
feff00e0 00000000 feff00e0 04000000 ff4fff51 feffdde0 00000000 feff0de0 00000000 feffdde0 00000000 > 76 [76]
encapsulated 08004011 5351 0000 30000000 feff00e0 28000000 e07f1000 4f42 0000 ffffffff \
feff00e0 00000000 feff00e0 04000000 ff4fff51 feffdde0 00000000 > 60 [60]
encapsulated e07f1000 4f42 0000 ffffffff feff00e0 00000000 feff00e0 04000000 ff4fff51 feffdde0 00000000 \
fafffaff 5351 0000 12000000 feff00e0 0a000000 10002000 4c4f 0200 5031 > 70 [70]
encapsulated e07f1000 4f42 0000 02000000 5031 > 14 [14]
encapsulated 09000110 554e 0000 ffffffff feff00e0 ffffffff 10002000 02000000 5031 \
feff0de0 00000000 feffdde0 00000000 > 46 [46]
encapsulated 10002000 4c4f 0200 5031 > 10 [10]";

/// After how many bytes the writer fails, and what it gets: 32 nested sequences, of 1,152 bytes, or pixel data in
/// fragments, of 40 bytes.
const FAILING: &str = "\
0 nested > 12 Write 0 [0]
400 nested > 12 Write 400 [400]
1151 nested > 12 Write 1151 [1151]
1152 nested > 1152 [1152]
11 encapsulated e07f1000 4f42 0000 ffffffff feff00e0 00000000 feff00e0 04000000 ff4fff51 feffdde0 00000000 > \
12 Write 11 [11]
20 encapsulated e07f1000 4f42 0000 ffffffff feff00e0 00000000 feff00e0 04000000 ff4fff51 feffdde0 00000000 > \
12 Write 20 [20]
31 encapsulated e07f1000 4f42 0000 ffffffff feff00e0 00000000 feff00e0 04000000 ff4fff51 feffdde0 00000000 > \
12 Write 31 [31]
39 encapsulated e07f1000 4f42 0000 ffffffff feff00e0 00000000 feff00e0 04000000 ff4fff51 feffdde0 00000000 > \
12 Write 39 [39]
40 encapsulated e07f1000 4f42 0000 ffffffff feff00e0 00000000 feff00e0 04000000 ff4fff51 feffdde0 00000000 > \
40 [40]";

/// Elements of an empty offset table and one fragment: the tag, the value representation (`--` for none), the syntax
/// and the fragment. The answer is the size, what comes of sending the set, and what the writer holds. Only pixel data
/// OB in an encapsulated syntax has fragments, and these are of even length.
const MADE: &str = "\
7FE0,0010 OB encapsulated ff4fff51 > \
Some(40) 40 [e07f10004f420000fffffffffeff00e000000000feff00e004000000ff4fff51feffdde000000000]
7FE0,0010 OB encapsulated ' > \
Some(36) 36 [e07f10004f420000fffffffffeff00e000000000feff00e000000000feffdde000000000]
7FE0,0010 OB encapsulated ff4fff > None 13 NotWritable []
7FE0,0011 OB encapsulated ff4fff51 > None 13 NotWritable []
0010,0020 OB encapsulated ff4fff51 > None 13 NotWritable []
7FE0,0010 OW encapsulated ff4fff51 > None 13 NotWritable []
7FE0,0010 UN encapsulated ff4fff51 > None 13 NotWritable []
7FE0,0010 -- encapsulated ff4fff51 > None 13 NotWritable []
7FE0,0010 OB explicit ff4fff51 > None 13 NotWritable []
7FE0,0010 OB implicit ff4fff51 > None 13 NotWritable []
7FE0,0010 -- implicit ff4fff51 > None 13 NotWritable []";

/// A header: its tag, value representation and length, and how many bytes went before. A short one has room for a
/// length up to 65,535.
const HEADERS: &str = "\
0004,1220 SQ 556 308 > 320 [04002012535100002c020000]
0008,0060 CS 65535 0 > 8 [080060004353ffff]
0008,0060 CS 65536 0 > 13 NotWritable []";

/// After how many bytes a writer fails that gets a piece of 10 bytes after 100 others.
const PIECES: &str = "\
4 > 12 Write 104 [10002000]
10 > 110 [100020004c4f02005031]";

fn in_words(alloc: Global, answer: Result<u64, WriteFault>) -> Result<String, Fail> {
    match answer {
        Ok(sent) => Ok(format!(in alloc; "{sent}")?),
        Err(fault) => Ok(format!(in alloc; "{fault}")?),
    }
}

fn told_with(alloc: Global, answer: Result<u64, WriteFault>, sink: &Sink) -> Result<String, Fail> {
    let answer = in_words(alloc, answer)?;
    let held = hex::encode(alloc, sink.bytes())?;
    Ok(format!(in alloc; "{answer} [{held}]")?)
}

/// Gives how many bytes went or the fault, and how many bytes the writer holds.
fn sent_again(alloc: Global, syntax: Syntax, bytes: &[u8], mut sink: Sink) -> Result<String, Fail> {
    let set = set_of(alloc, syntax, bytes)?;
    sink.reserve(bytes.len())?;
    let answer = in_words(alloc, write_set(&set, syntax, &mut sink))?;
    let held = sink.bytes().len();
    if !bytes.starts_with(sink.bytes()) {
        return Err("it holds other bytes".into());
    }
    Ok(format!(in alloc; "{answer} [{held}]")?)
}

fn named(alloc: Global, line: &str) -> Result<(Syntax, Vec<u8>), Fail> {
    if line == "nested" {
        return Ok((Syntax::Explicit, nested(alloc, 32, &[])?));
    }
    spelled(alloc, line)
}

/// Sends the set of this line to a writer that fails after the number of bytes before it, or never.
fn sent(alloc: Global, question: &str) -> Result<String, Fail> {
    let (word, rest) = question.split_once(' ').ok_or("no set")?;
    let (fails, line) = match word.parse() {
        Ok(fails) => (Some(fails), rest),
        Err(_) => (None, question),
    };
    let (syntax, bytes) = named(alloc, line)?;
    let sink = Sink::new(alloc, fails);
    sent_again(alloc, syntax, &bytes, sink)
}

#[test]
fn sets_give_their_bytes_back(rt: HostRuntime) -> Result<(), Fail> {
    ask_all(rt.alloc(), SENT, sent)?;
    ask_all(rt.alloc(), FRAGMENTS, sent)?;
    ask_all(rt.alloc(), FAILING, sent)
}

fn only<'a>(
    alloc: Global,
    tag: Tag,
    vr: Option<Vr>,
    value: Value<'a>,
) -> Result<DataSet<'a>, Fail> {
    let mut elements = Vec::new(alloc);
    elements.push(Element { tag, vr, value })?;
    Ok(DataSet { elements })
}

#[test]
fn a_set_of_odd_bytes_is_not_written(rt: HostRuntime) -> Result<(), Fail> {
    let set = only(rt.alloc(), PATIENT_ID, Some(Vr::LO), Value::Bytes(b"P"))?;
    let mut sink = Sink::new(rt.alloc(), None);
    let answer = write_set(&set, Syntax::Explicit, &mut sink);
    assert_eq!(rt; answer, Err(WriteFault::NotWritable));
    assert!(rt; sink.bytes().is_empty() && set.size(Syntax::Explicit).is_none());
    Ok(())
}

fn in_fragments<'a>(alloc: Global, fragment: &'a [u8]) -> Result<Value<'a>, Fail> {
    let mut fragments: Vec<&'a [u8]> = Vec::new(alloc);
    fragments.push(&[])?;
    fragments.push(fragment)?;
    Ok(Value::Fragments(fragments))
}

fn size_and_sent(alloc: Global, syntax: Syntax, set: &DataSet<'_>) -> Result<String, Fail> {
    let mut sink = Sink::new(alloc, None);
    sink.reserve(40)?;
    let answer = write_set(set, syntax, &mut sink);
    let (size, told) = (set.size(syntax), told_with(alloc, answer, &sink)?);
    Ok(format!(in alloc; "{size:?} {told}")?)
}

fn made(alloc: Global, question: &str) -> Result<String, Fail> {
    let (tag, rest) = question.split_once(' ').ok_or("no tag")?;
    let (letters, line) = rest.split_once(' ').ok_or("no letters")?;
    let (syntax, fragment) = spelled(alloc, line)?;
    let vr = Vr::from_letters(letters.as_bytes().try_into()?);
    let set = only(alloc, tag_of(tag)?, vr, in_fragments(alloc, &fragment)?)?;
    size_and_sent(alloc, syntax, &set)
}

#[test]
fn fragments_are_written_where_they_may_stand(rt: HostRuntime) -> Result<(), Fail> {
    ask_all(rt.alloc(), MADE, made)
}

fn header_sent(header: &str, sink: &mut Sink) -> Result<Result<u64, WriteFault>, Fail> {
    let mut words = header.split(' ');
    let tag = tag_of(words.next().ok_or("no tag")?)?;
    let letters = words.next().ok_or("no letters")?;
    let length = words.next().ok_or("no length")?.parse()?;
    let before = u64::from(words.next().ok_or("no count")?.parse::<u32>()?);
    match letters {
        "SQ" => Ok(send_header(tag, Vr::SQ, length, sink, before)),
        "CS" => Ok(send_header(tag, Vr::CS, length, sink, before)),
        _ => Err("other letters".into()),
    }
}

fn header(alloc: Global, question: &str) -> Result<String, Fail> {
    let mut sink = Sink::new(alloc, None);
    sink.reserve(12)?;
    let answer = header_sent(question, &mut sink)?;
    told_with(alloc, answer, &sink)
}

fn piece(alloc: Global, question: &str) -> Result<String, Fail> {
    let bytes = bytes_of(alloc, "10002000 4c4f 0200 5031")?;
    let mut sink = Sink::new(alloc, Some(question.parse()?));
    sink.reserve(10)?;
    let answer = send(&bytes, &mut sink, 100);
    told_with(alloc, answer, &sink)
}

#[test]
fn headers_and_pieces_are_sent_behind_others(rt: HostRuntime) -> Result<(), Fail> {
    ask_all(rt.alloc(), HEADERS, header)?;
    ask_all(rt.alloc(), PIECES, piece)
}
