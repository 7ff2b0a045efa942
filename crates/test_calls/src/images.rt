//! Image files, and the directory of each.

use crate::answers::{no_answer, words};
use crate::reading::{front_in_words, list_in_words};
use dd_calls::{DONE, ROOM};
use dd_making::of_image;
use dd_vectors::{ask_all, put_words, require, v1_implicit, v1_with};
use std::alloc::Global;
use std::test::Fail;

/// Changes to V1, and after `@` what is put into its bytes at a place. Then the status and the size of its directory,
/// or the fault of the file.
const IMAGES: &str = "\
@ > 0 914 0 0
@128 '4 > 31 21 0 0 (0000,0000) 0
0002,0000 UL 72000000; 0002,0003 absent > 31 23 0 0 (0002,0003) 0
0002,0010 UI '1.2.840.10008.1.2.2~ > 31 25 0 0 (0000,0000) 0
@148 5a5a > 31 26 3 0 (0000,0000) 0
@450 0400 > 31 27 1 0 (0000,0000) 0
0002,0000 UL 88000000; 0002,0002 UI '1.2.840.10008.5.1.4.1.1.88.11~ > 32 0 0 0 (0000,0000) 0
0020,000E absent > 33 0 0 0 (0020,000E) 0
0020,000D UI '1..2.3 > 34 0 0 0 (0020,000D) 0
0010,0020 LO long > 35 0 0 0 (0010,0020) 0
0010,0020 SQ > 36 0 0 0 (0010,0020) 0
0008,0018 UI '1.2.3.4.6~ > 37 0 0 0 (0008,0018) 0";

/// The directory of V1 under the UID that follows from it.
const LIST: &str = "0 131 0 0: 358 PATIENT P1|  442 STUDY 1.2.3|    568 SERIES 1.2.3.4|      \
660 IMAGE PT000001\\ST000001\\SE000001\\IM000001|4 records, 0 unreached|";

const FRONT: &str = "0 44 3 0: ' '2.25.203980963844863891982135713436996079817 ' 0";

/// A Patient ID of 1,026 bytes.
fn with_long_id(alloc: Global) -> Result<Vec<u8>, Fail> {
    let mut change = String::from_str(alloc, "0010,0020 LO '")?;
    for _ in 0..1026 {
        change.push('A')?;
    }
    v1_with(alloc, &change)
}

/// Makes V1 in Implicit VR (`implicit`), or with changes and with bytes at places after `@`.
pub(crate) fn image(alloc: Global, words: &str) -> Result<Vec<u8>, Fail> {
    match words {
        "implicit" => v1_implicit(alloc),
        "0010,0020 LO long" => with_long_id(alloc),
        _ => {
            let (changes, places) = words.split_once('@').unwrap_or((words, ""));
            let mut bytes = v1_with(alloc, changes)?;
            put_words(alloc, &mut bytes, places)?;
            Ok(bytes)
        }
    }
}

/// Makes the directory of an image.
pub(crate) fn directory_of(alloc: Global, words: &str) -> Result<Vec<u8>, Fail> {
    let bytes = image(alloc, words)?;
    let mut answer = no_answer();
    let status = of_image(alloc, &bytes, &mut [], &mut answer);
    require(status == ROOM, "no room is short")?;
    let mut text = vec![in alloc; 0; usize::try_from(answer.text)?]?;
    let status = of_image(alloc, &bytes, &mut text, &mut answer);
    require(status == DONE, "the room that was asked for is enough")?;
    Ok(text)
}

fn said_of_image(alloc: Global, question: &str) -> Result<String, Fail> {
    let mut answer = no_answer();
    let mut room = vec![in alloc; 0; 1024]?;
    let status = of_image(alloc, &image(alloc, question)?, &mut room, &mut answer);
    Ok(words(alloc, status, &answer)?)
}

#[test]
fn statuses_of_images(rt: HostRuntime) -> Result<(), Fail> {
    ask_all(rt.alloc(), IMAGES, said_of_image)
}

#[test]
fn the_directory_of_an_image(rt: HostRuntime) -> Result<(), Fail> {
    let made = directory_of(rt.alloc(), "")?;
    assert_eq!(rt; list_in_words(rt.alloc(), &made)?.as_str(), LIST);
    assert_eq!(rt; front_in_words(rt.alloc(), &made)?.as_str(), FRONT);
    Ok(())
}
