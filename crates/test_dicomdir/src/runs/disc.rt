//! Files in memory, as runs find them.

use dd_mem_files::MemFiles;
use dd_vectors::{deep, first_directory, put_words, v1, v1_encapsulated, v1_with, v2, v3};
use std::alloc::Global;
use std::test::Fail;

/// Images: the path of each, and how it differs from V1. The class of b.dcm is no image's. c.dcm and e.dcm are other
/// versions of V1, c.dcm with a greater digest, e.dcm with a smaller one. d.dcm is another instance, o.dcm a third,
/// p.dcm a fourth. n.dcm has no Patient ID, o.dcm neither that nor a name, and the name of p.dcm a byte that does not
/// print. The transfer syntax of x.dcm is not read.
const IMAGES: &str = "\
a.dcm none
b.dcm 0002,0000 UL 88000000; 0002,0002 UI '1.2.840.10008.5.1.4.1.1.88.11~
c.dcm 0010,0010 PN 'DOE^JUDY
d.dcm 0002,0003 UI '1.2.3.4.6~; 0008,0018 UI '1.2.3.4.6~
e.dcm 0010,0010 PN 'DOE^JANE
n.dcm 0010,0020 LO
o.dcm 0002,0003 UI '1.2.3.4.7~; 0008,0018 UI '1.2.3.4.7~; 0010,0010 PN; 0010,0020 LO
p.dcm 0002,0003 UI '1.2.3.4.8~; 0008,0018 UI '1.2.3.4.8~; 0010,0010 PN 444f455e4ad65247
x.dcm 0002,0010 UI '1.2.840.10008.1.2.2~";

pub(crate) const FIRST_IMAGE: &str = "out/PT000001/ST000001/SE000001/IM000001";

/// Makes a disc with images, V1 with pixel data in fragments (f.dcm), a part of V1, a text, a folder that has a
/// directory, and one that has an image.
pub(crate) fn disc(alloc: Global) -> Result<MemFiles, Fail> {
    let mut files = MemFiles::new(alloc);
    for line in IMAGES.split('\n') {
        let (path, changes) = line.split_once(' ').ok_or("no image")?;
        files.put(path, &v1_with(alloc, changes)?)?;
    }
    put_others(alloc, &mut files)?;
    Ok(files)
}

fn put_others(alloc: Global, files: &mut MemFiles) -> Result<(), Fail> {
    let image = v1(alloc)?;
    files.put("part.dcm", image.get(..450).ok_or("fewer bytes")?)?;
    files.put("f.dcm", &v1_encapsulated(alloc)?)?;
    files.put("note.txt", b"no image")?;
    files.put("full/DICOMDIR", b"")?;
    files.put("taken/PT000001/ST000001/SE000001/IM000001", b"")?;
    put_lists(files)
}

/// Puts lists of names. The names of two are there, and the second list is without its last zero byte. Of one a name is
/// empty, of one a name is not UTF-8, and one has no name. One names a file that is not there, one names two sets, and
/// one has lines.
fn put_lists(files: &mut MemFiles) -> Result<(), Fail> {
    files.put("two", b"a.dcm\0d.dcm\0")?;
    files.put("open", b"d.dcm\0a.dcm")?;
    files.put("gap", b"a.dcm\0\0d.dcm\0")?;
    files.put("latin", b"a.dcm\0d\xe9.dcm\0")?;
    files.put("void", b"")?;
    files.put("gone", b"a.dcm\0none.dcm\0")?;
    files.put("sets", b"d1\0d2\0")?;
    files.put("lines", b"a.dcm\nd.dcm")?;
    Ok(())
}

/// Puts more files by words. `path=name` takes the bytes of a file that is there, or of a directory: `first` has V1
/// alone, `empty` nothing, `v3` is another tool's, and `deep` has 33 levels. A `,` stands before each offset and each
/// word of bytes that are put there. `folder=set` puts the directory that has V1 alone, and V1.
pub(crate) fn put_files(alloc: Global, files: &mut MemFiles, words: &str) -> Result<(), Fail> {
    for word in words.split(' ') {
        match word.split_once('=').ok_or("no name")? {
            (folder, "set") => put_set(alloc, files, folder)?,
            (path, name) => put_copy(alloc, files, path, name)?,
        }
    }
    Ok(())
}

fn put_set(alloc: Global, files: &mut MemFiles, folder: &str) -> Result<(), Fail> {
    let directory = format!(in alloc; "{folder}/DICOMDIR")?;
    files.put(directory.as_str(), &first_directory(alloc)?)?;
    let image = format!(in alloc; "{folder}/PT000001/ST000001/SE000001/IM000001")?;
    files.put(image.as_str(), &v1(alloc)?)?;
    Ok(())
}

fn put_copy(alloc: Global, files: &mut MemFiles, path: &str, name: &str) -> Result<(), Fail> {
    let (name, changes) = name.split_once(',').unwrap_or((name, ""));
    let mut bytes = bytes_with_name(alloc, files, name)?;
    put_words(alloc, &mut bytes, changes)?;
    files.put(path, &bytes)?;
    Ok(())
}

fn bytes_with_name(alloc: Global, files: &MemFiles, name: &str) -> Result<Vec<u8>, Fail> {
    match name {
        "first" => first_directory(alloc),
        "empty" => v2(alloc),
        "v3" => v3(alloc),
        "deep" => deep(alloc, 33),
        name => Ok(files.bytes(name).ok_or("no such file")?.to_vec(alloc)?),
    }
}

/// Says whether both hold the same files, each with its path and its bytes.
pub(crate) fn are_equal(alloc: Global, files: &MemFiles, others: &MemFiles) -> Result<bool, Fail> {
    let text = format!(in alloc; "{files:?}")?;
    let other = format!(in alloc; "{others:?}")?;
    let (stored, _) = text.as_str().split_once(", current: ").ok_or("no files")?;
    let (others, _) = other.as_str().split_once(", current: ").ok_or("no files")?;
    Ok(stored == others)
}
