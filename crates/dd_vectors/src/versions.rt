use crate::cases::{cut, shown};
use crate::source_file::element;
use crate::texts::{bytes_of, text_of};
use dd_catalogue::Catalogue;
use dd_elem::{Key, Uid};
use dd_version::{Parts, PatientKeys, SeriesKeys, StudyKeys, Version};
use std::alloc::Global;
use std::test::Fail;

/// For each letter the byte that its digest repeats, the study description, the instance, and other changes to V1:
///
/// - `1` to `4`: two patients
/// - `5`: the first's series in another study
/// - `6`: the first's study with another patient
/// - `7`: a series that comes before the first's
/// - `p` to `r`: numbers in another order than their instances
/// - others: the first two with other digests, descriptions (one of more than 22 bytes) and times
const IMAGES: &str = "\
1 170 ' '1.2.3.4.5~
2 170 ' '1.2.3.4.6~
3 170 ' '1.2.3.5.1~; 0020,000E UI '1.2.3.5~; 0020,0011 IS '2_
4 170 ' '1.2.9.1.1~; 0010,0010 PN 'ROE^JANE; 0010,0020 LO 'P2; 0020,000D UI '1.2.9~; \
0020,000E UI '1.2.9.1~
5 170 ' '1.2.8.4.1~; 0020,000D UI '1.2.8~
6 170 ' '1.2.3.4.7~; 0010,0020 LO 'P3
7 170 ' '1.2.3.4.9~; 0020,000E UI '1.2.3.1~
p 170 ' '1.2.9~; 0020,0013 IS '1_
q 170 ' '1.2.10; 0020,0013 IS '2_
r 170 ' '1.2.11; 0020,0013 IS '3_
a 1 ' '1.2.3.4.5~
b 2 ' '1.2.3.4.5~
A 170 'A '1.2.3.4.5~
B 170 'B '1.2.3.4.5~
Z 170 'Z '1.2.3.4.5~
W 170 'A_DESCRIPTION_THAT_WANTS_MEMORY '1.2.3.4.5~
C 170 'B '1.2.3.4.6~
D 170 'A '1.2.3.4.6~
L 170 'A '1.2.3.4.6~; 0008,0030 TM '101600
x 1 'Z '1.2.3.4.5~
y 1 'A '1.2.3.4.6~
z 2 'B '1.2.3.4.5~";

const DIGEST: &str = "900e75e1c153f87b21e09f9db68aef627f2dd320eb3afb1f2574594e6c862a92";

/// Gives the version of V1.
pub fn v1_version(alloc: Global) -> Result<Version, Fail> {
    let mut parts = parts_with(alloc, "")?;
    parts.digest = bytes_of(alloc, DIGEST)?.as_slice().try_into()?;
    fitting(parts)
}

fn key(alloc: Global, changes: &str, tag: &str) -> Result<Key, Fail> {
    let (_vr, value) = element(tag, changes)?.split_once(' ').unwrap_or(("", "'"));
    Ok(Key::copy_of(alloc, &bytes_of(alloc, value)?)?)
}

fn uid(alloc: Global, changes: &str, tag: &str) -> Result<Uid, Fail> {
    Ok(Uid::new(key(alloc, changes, tag)?.as_bytes())?)
}

fn parts_with(alloc: Global, changes: &str) -> Result<Parts, Fail> {
    Ok(Parts {
        digest: [0; 32],
        patient: PatientKeys {
            id: key(alloc, changes, "0010,0020")?,
            name: key(alloc, changes, "0010,0010")?,
            charset: Key::copy_of(alloc, b"")?,
        },
        study: study_with(alloc, changes)?,
        series: SeriesKeys {
            uid: uid(alloc, changes, "0020,000E")?,
            modality: key(alloc, changes, "0008,0060")?,
            number: key(alloc, changes, "0020,0011")?,
        },
        number: key(alloc, changes, "0020,0013")?,
        class: uid(alloc, changes, "0008,0016")?,
        transfer: uid(alloc, changes, "0002,0010")?,
        instance: uid(alloc, changes, "0008,0018")?,
    })
}

fn study_with(alloc: Global, changes: &str) -> Result<StudyKeys, Fail> {
    Ok(StudyKeys {
        uid: uid(alloc, changes, "0020,000D")?,
        date: key(alloc, changes, "0008,0020")?,
        time: key(alloc, changes, "0008,0030")?,
        accession: Key::copy_of(alloc, b"")?,
        description: Key::copy_of(alloc, b"")?,
        id: key(alloc, changes, "0020,0010")?,
        charset: Key::copy_of(alloc, b"")?,
    })
}

/// Copies the parts of this version.
pub fn parts_of(version: &Version) -> Result<Parts, Fail> {
    Ok(version.parts().copy()?)
}

/// Makes the version of these parts. Fails where they do not fit.
pub fn fitting(parts: Parts) -> Result<Version, Fail> {
    match Version::of(parts) {
        Ok(version) => Ok(version),
        Err(_) => Err("it does not fit".into()),
    }
}

fn version_with(alloc: Global, line: &str) -> Result<Version, Fail> {
    let (digest, line) = cut(line, " ")?;
    let (description, rest) = cut(line, " ")?;
    let changes = format!(in alloc; "0008,0018 UI {rest}")?;
    let mut parts = parts_with(alloc, changes.as_str())?;
    parts.digest = [digest.parse()?; 32];
    parts.study.description = Key::copy_of(alloc, &bytes_of(alloc, description)?)?;
    fitting(parts)
}

/// Makes the version with this letter.
pub fn image(alloc: Global, letter: char) -> Result<Version, Fail> {
    for line in IMAGES.split('\n') {
        let (name, line) = cut(line, " ")?;
        if name.starts_with(letter) {
            return version_with(alloc, line);
        }
    }
    Err("no image has this letter".into())
}

/// Makes the versions with these letters.
pub fn images(alloc: Global, letters: &str) -> Result<Vec<Version>, Fail> {
    let mut versions = Vec::new(alloc);
    for letter in letters.chars() {
        versions.push(image(alloc, letter)?)?;
    }
    Ok(versions)
}

/// Makes the catalogue of the versions with these letters.
pub fn taken(alloc: Global, letters: &str) -> Result<Catalogue, Fail> {
    let mut catalogue = Catalogue::new(alloc);
    for letter in letters.chars() {
        if catalogue.take(image(alloc, letter)?).is_err() {
            return Err("no memory".into());
        }
    }
    Ok(catalogue)
}

/// Makes the catalogue of the versions with these letters, and withdraws each instance that comes after a `/`.
pub fn catalogue_of(alloc: Global, words: &str) -> Result<Catalogue, Fail> {
    let mut words = words.split('/');
    let mut catalogue = taken(alloc, words.next().unwrap_or(""))?;
    for uid in words {
        catalogue.withdraw(Uid::new(uid.as_bytes())?)?;
    }
    Ok(catalogue)
}

/// Gives the first byte of the digest, the description and the instance of a version.
pub fn in_words(alloc: Global, version: &Version) -> Result<String, Fail> {
    let parts = version.parts();
    let (digest, instance) = (parts.digest[0], parts.instance);
    let description = text_of(alloc, parts.study.description.as_bytes())?;
    shown(alloc, format_args!("{digest} {description} {instance}"))
}
