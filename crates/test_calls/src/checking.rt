//! What is found of files by the records of their directory.

use crate::answers::{directory, no_answer, tag_in, words};
use crate::images::image;
use dd_calls::{FindingRow, GivenFile, ROOM, Texts, findings};
use dd_report::Comparison;
use dd_vectors::ask_all;
use sha2::{Digest, Sha256};
use std::alloc::{AllocError, Global};
use std::test::Fail;

/// A directory; what is compared; and files, each by the number of its record, its form and its parts. A part is `v1`,
/// `implicit`, `other` (of another patient), `none` (no DICOM file), or one of these after `sha:` for its SHA-256. Then
/// the status and the sizes, and of each finding the number, the tag and the causes, or the fault.
const FINDINGS: &str = "\
one;; > 0 0 0 0:
one;;3 0 -,3 1 -,3 2 v1,3 2 implicit,3 3 sha:v1,3 3 sha:implicit,0 2 v1 > 0 0 7 0: \
2 (0000,0000) 0 0 3 (0000,0000) 0 0 0 (0000,0000) 0 0 4 (0000,0000) 0 0 0 (0000,0000) 0 0 4 (0000,0000) 0 0 \
0 (0000,0000) 0 0
one;keys strict;3 4 sha:v1+v1,3 4 sha:v1+other,3 4 sha:implicit+v1 > 0 0 3 0: \
0 (0000,0000) 0 0 5 (0010,0020) 0 0 4 (0000,0000) 0 0
one;;3 4 sha:v1+other > 0 0 1 0: 0 (0000,0000) 0 0
one 686 'p;;3 2 v1 > 0 0 1 0: 1 (0000,0000) 0 0
v3 674 ffff;keys;3 2 v1,3 2 other,3 2 none,3 3 sha:other,3 4 sha:v1+other,3 4 sha:v1+none > 0 0 6 0: \
0 (0000,0000) 0 0 5 (0010,0020) 0 0 6 (0000,0000) 21 0 0 (0000,0000) 0 0 5 (0010,0020) 0 0 6 (0000,0000) 21 0
v3 674 ffff;strict;3 2 other,4 2 v1 > 0 0 2 0: 7 (0000,0000) 0 0 7 (0000,0000) 0 0
one;;4 2 v1 > 2 0 0 0 (0000,0000) 0
one;;3 5 v1 > 2 0 0 0 (0000,0000) 0
one;;3 3 v1 > 2 0 0 0 (0000,0000) 0
one;;3 4 - > 2 0 0 0 (0000,0000) 0
v1;;0 2 v1 > 52 0 0 0 (0000,0000) 0";

fn part(alloc: Global, name: &str) -> Result<Vec<u8>, Fail> {
    match name {
        "-" => Ok(Vec::new(alloc)),
        "v1" => image(alloc, ""),
        "other" => image(alloc, "0010,0020 LO 'P2"),
        "none" => image(alloc, "@128 '4"),
        other => image(alloc, other),
    }
}

fn contents(alloc: Global, names: &str) -> Result<Vec<u8>, Fail> {
    let mut bytes = Vec::new(alloc);
    for name in names.split('+') {
        match name.strip_prefix("sha:") {
            Some(name) => bytes.extend_from_slice(&Sha256::digest(&part(alloc, name)?))?,
            None => bytes.extend_from_slice(&part(alloc, name)?)?,
        }
    }
    Ok(bytes)
}

fn give_file(
    alloc: Global,
    words: &str,
    files: &mut Vec<GivenFile>,
    given: &mut Texts,
) -> Result<(), Fail> {
    let (row, words) = words.split_once(' ').ok_or("no row")?;
    let (form, names) = words.split_once(' ').ok_or("no form")?;
    given.put(&contents(alloc, names)?)?;
    files.push(GivenFile {
        row: row.parse()?,
        end: given.text.len() as u64,
        given: form.parse()?,
    })?;
    Ok(())
}

fn push_findings(said: &mut String, rows: &[FindingRow]) -> Result<(), AllocError> {
    for row in rows {
        let FindingRow {
            kind,
            within,
            cause,
            ..
        } = *row;
        let tag = tag_in(row.tag);
        write!(said, " {kind} {tag} {within} {cause}")?;
    }
    Ok(())
}

fn findings_in_words(
    alloc: Global,
    bytes: &[u8],
    files: &[GivenFile],
    given: &[u8],
    comparison: Comparison,
) -> Result<String, Fail> {
    let blank = FindingRow {
        kind: 0,
        tag: 0,
        within: 0,
        cause: 0,
    };
    let mut rows = vec![in alloc; blank; files.len()]?;
    let mut answer = no_answer();
    let status = findings(
        alloc,
        bytes,
        files,
        given,
        comparison,
        &mut rows,
        &mut answer,
    );
    let mut said = words(alloc, status, &answer)?;
    if status <= ROOM {
        said.push(':')?;
        push_findings(&mut said, &rows)?;
    }
    Ok(said)
}

fn check_in_words(alloc: Global, question: &str) -> Result<String, Fail> {
    let (name, rest) = question.split_once(';').ok_or("no comparison")?;
    let (compared, files) = rest.split_once(';').ok_or("no files")?;
    let (mut given, mut content) = (Vec::new(alloc), Texts::new(alloc));
    for words in files.split(',') {
        if !words.is_empty() {
            give_file(alloc, words, &mut given, &mut content)?;
        }
    }
    let comparison = Comparison {
        keys: compared.contains("keys"),
        strict: compared.contains("strict"),
    };
    let bytes = directory(alloc, name)?;
    findings_in_words(alloc, &bytes, &given, &content.text, comparison)
}

#[test]
fn findings_of_files(rt: HostRuntime) -> Result<(), Fail> {
    ask_all(rt.alloc(), FINDINGS, check_in_words)
}

#[test]
fn fewer_findings_than_files(rt: HostRuntime) -> Result<(), Fail> {
    let file = GivenFile {
        row: 0,
        end: 0,
        given: 0,
    };
    let comparison = Comparison {
        keys: false,
        strict: false,
    };
    let mut answer = no_answer();
    let status = findings(
        rt.alloc(),
        &[],
        &[file, file],
        &[],
        comparison,
        &mut [],
        &mut answer,
    );
    assert_eq!(rt; words(rt.alloc(), status, &answer)?.as_str(), "1 0 2 0");
    Ok(())
}
