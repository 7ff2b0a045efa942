//! Data sets in the DICOM JSON model, by PS3.18 section F.2; the texts are read by pydicom.

use crate::sets::spellings::{set_of, spelled};
use dd_dicom_json::{CharacterSet, add_elements};
use dd_lines::LineBuffer;
use dd_vectors::{Sink, ask_all};
use std::alloc::Global;
use std::test::Fail;

/// Data sets, and their texts.
const TEXTS: &str = r#"explicit ' > {}
explicit 100020004c4f02005031 > {"00100020":{"vr":"LO","Value":["P1"]}}
explicit 0800500053480000 > {"00080050":{"vr":"SH"}}
explicit 08000800435312004f524947494e414c5c20415849414c5c5c20 > {"00080008":{"vr":"CS","Value":["ORIGINAL","AXIAL",null,null]}}
explicit 0800180055490600312e322e3300 > {"00080018":{"vr":"UI","Value":["1.2.3"]}}
explicit 200013004953040020313220 > {"00200013":{"vr":"IS","Value":["12"]}}
explicit 0800050043530a0049534f5f49522031303010001000504e08004dfc6c6c65725e4a > {"00080005":{"vr":"CS","Value":["ISO_IR 100"]},"00100010":{"vr":"PN","Value":[{"Alphabetic":"Müller^J"}]}}
explicit 0800050043530a0049534f5f49522031393210001000504e2e0059616d6164615e5461726f753de5b1b1e794b05ee5a4aae9838e3de38284e381bee381a05ee3819fe3828de38186 > {"00080005":{"vr":"CS","Value":["ISO_IR 192"]},"00100010":{"vr":"PN","Value":[{"Alphabetic":"Yamada^Tarou","Ideographic":"山田^太郎","Phonetic":"やまだ^たろう"}]}}
explicit 10001000504e04003d3d5420 > {"00100010":{"vr":"PN","Value":[{"Phonetic":"T"}]}}
explicit 10001000504e08004dfc6c6c65725e4a > {"00100010":{"vr":"UN","vr_recorded":"PN","InlineBinary":"TfxsbGVyXko="}}
explicit 100000404c540a0020615c620d0a22712220 > {"00104000":{"vr":"LT","Value":[" a\\b\r\n\"q\""]}}
explicit 28001000555302000002 > {"00280010":{"vr":"US","Value":[512]}}
explicit 2800060153530200ffff > {"00280106":{"vr":"SS","Value":[-1]}}
explicit 280006015553040001000200 > {"00280106":{"vr":"UN","vr_recorded":"US","InlineBinary":"AQACAA=="}}
explicit 08006111554c0400ffffffff > {"00081161":{"vr":"UL","Value":[4294967295]}}
explicit 280009004154040018006310 > {"00280009":{"vr":"AT","Value":["00181063"]}}
explicit 280009004154080018006310e07f1000 > {"00280009":{"vr":"AT","Value":["00181063","7FE00010"]}}
explicit 090010004f420000020000000001 > {"00090010":{"vr":"OB","InlineBinary":"AAE="}}
explicit 090010004f42000006000000000102030405 > {"00090010":{"vr":"OB","InlineBinary":"AAECAwQF"}}
explicit 080040115351000000000000 > {"00081140":{"vr":"SQ"}}
explicit 0800050043530a0049534f5f49522031303008004011535100003e000000feff00e01c0000000800050043530a0049534f5f495220313932100020004c4f0200c3a4feff00e00a000000100020004c4f0200e420feff00e000000000 > {"00080005":{"vr":"CS","Value":["ISO_IR 100"]},"00081140":{"vr":"SQ","Value":[{"00080005":{"vr":"CS","Value":["ISO_IR 192"]},"00100020":{"vr":"LO","Value":["ä"]}},{"00100020":{"vr":"LO","Value":["ä"]}},{}]}}
encapsulated e07f1000 4f42 0000 ffffffff feff00e0 00000000 feff00e0 04000000 ff4fff51 feffdde0 00000000 > {"7FE00010":{"vr":"OB","fragments":["","/0//UQ=="]}}
implicit 10002000 02000000 5031 > {"00100020":{"vr":"UN","InlineBinary":"UDE="}}"#;

fn text_of(alloc: Global, question: &str) -> Result<String, Fail> {
    let (syntax, bytes) = spelled(alloc, question)?;
    let set = set_of(alloc, syntax, &bytes)?;
    let mut sink = Sink::new(alloc, None);
    let mut lines = LineBuffer::new(&mut sink);
    add_elements(&set, CharacterSet::Ascii, &mut lines)?;
    lines.flush()?;
    Ok(String::from_utf8(sink.into_bytes())?)
}

#[test]
fn sets_have_their_json(rt: HostRuntime) -> Result<(), Fail> {
    ask_all(rt.alloc(), TEXTS, text_of)
}
