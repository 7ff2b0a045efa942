//! Which command lines are taken, and the status and output of the others.

use dd_vectors::{ask_all, words_of};
use dicomdir::{Asked, LineFault, read_words};
use std::alloc::Global;
use std::test::Fail;

/// Lines, and what they ask for: the command, the ID and the UID (`-` where none is given), the most bytes, and the
/// paths. Then the UIDs of images after `without`, the list of names after `from`, the folder of `--from` after
/// `below`, and each flag that is set after `with`. Or, where they are refused, the exit status and whether the text is
/// for the error output.
const LINES: &str = "\
dicomdir index set image.dcm > Index - - 4294967295 set image.dcm
dicomdir index --id DISC1 --uid 2.25.1 --max-bytes 1000 set image.dcm > Index DISC1 2.25.1 1000 set image.dcm
dicomdir index --max-bytes=1000 --uid=2.25.1 --id=DISC1 set image.dcm > Index DISC1 2.25.1 1000 set image.dcm
dicomdir index --id 2.25.1 --uid DISC1 set image.dcm > Index 2.25.1 DISC1 4294967295 set image.dcm
dicomdir index --uid 2.25.1 set b.dcm a.dcm b.dcm > Index - 2.25.1 4294967295 set b.dcm a.dcm b.dcm
dicomdir index set b.dcm a.dcm --uid 2.25.1 > Index - 2.25.1 4294967295 set b.dcm a.dcm
dicomdir index set b.dcm --uid 2.25.1 a.dcm --id DISC1 c.dcm > Index DISC1 2.25.1 4294967295 set b.dcm a.dcm c.dcm
dicomdir index set --max-bytes 7 b.dcm > Index - - 7 set b.dcm
anything index set --uid 2.25.1 -- --id -x -- > Index - 2.25.1 4294967295 set --id -x --
dicomdir index -- set index help > Index - - 4294967295 set index help
dicomdir index --uid '' set image.dcm > Index - '' 4294967295 set image.dcm
dicomdir index --id= --uid= '' '' > Index '' '' 4294967295 '' ''
dicomdir index --max-bytes 0 set image.dcm > Index - - 0 set image.dcm
dicomdir index --max-bytes 4294967295 set image.dcm > Index - - 4294967295 set image.dcm
dicomdir index --max-bytes 0007 set image.dcm > Index - - 7 set image.dcm
dicomdir index --max-bytes +876 set image.dcm > Index - - 876 set image.dcm
dicomdir index --max-bytes=-0 set image.dcm > Index - - 0 set image.dcm
dicomdir index --max-bytes 650M set image.dcm > Index - - 681574400 set image.dcm
dicomdir merge --max-bytes=3G set a > Merge - - 3221225472 set a
dicomdir withdraw --max-bytes 4194303K out set 1.2 > Withdraw - - 4294966272 out set without 1.2
dicomdir index --max-bytes +007K set image.dcm > Index - - 7168 set image.dcm
dicomdir index --max-bytes 64k set image.dcm > Index - - 65536 set image.dcm
dicomdir merge --max-bytes=4194303k set a > Merge - - 4294966272 set a
dicomdir index --max-bytes=-0G set image.dcm > Index - - 0 set image.dcm
dicomdir index --strict set image.dcm > Index - - 4294967295 set image.dcm with strict
dicomdir index set b.dcm --strict a.dcm --max-bytes 7 > Index - - 7 set b.dcm a.dcm with strict
dicomdir index --strict --id A -- set --strict > Index A - 4294967295 set --strict with strict
dicomdir index set -- --strict > Index - - 4294967295 set --strict
dicomdir index set --files0-from list > Index - - 4294967295 set from list
dicomdir index --files0-from=- set b.dcm a.dcm > Index - - 4294967295 set b.dcm a.dcm from -
dicomdir index --files0-from '' set > Index - - 4294967295 set from ''
dicomdir index --dry-run set --quiet image.dcm > Index - - 4294967295 set image.dcm with dry-run with quiet
dicomdir index --verbose set image.dcm > Index - - 4294967295 set image.dcm with verbose
dicomdir index -k set image.dcm > Index - - 4294967295 set image.dcm with keep-going
dicomdir index set --json image.dcm > Index - - 4294967295 set image.dcm with json
dicomdir index -- set --json > Index - - 4294967295 set --json
dicomdir merge set a > Merge - - 4294967295 set a
dicomdir merge set --files0-from list > Merge - - 4294967295 set from list
dicomdir merge --strict --dry-run set a --quiet > Merge - - 4294967295 set a with strict with dry-run with quiet
dicomdir merge --link set a b > Merge - - 4294967295 set a b with link
dicomdir merge set --files0-from list --link > Merge - - 4294967295 set from list with link
dicomdir merge set -- --link > Merge - - 4294967295 set --link
dicomdir merge --json --quiet set a > Merge - - 4294967295 set a with quiet with json
dicomdir merge --id DISC1 set b a b --uid 2.25.1 > Merge DISC1 2.25.1 4294967295 set b a b
dicomdir merge --max-bytes 7 set check > Merge - - 7 set check
dicomdir withdraw set old 1.2.840 > Withdraw - - 4294967295 set old without 1.2.840
dicomdir withdraw --id A --uid 2.25.1 --max-bytes 7 out set 1.2 1.3 > Withdraw A 2.25.1 7 out set without 1.2 1.3
dicomdir withdraw set old 1.2 --uid 2.25.1 1.3 1.2 > Withdraw - 2.25.1 4294967295 set old without 1.2 1.3 1.2
dicomdir withdraw -- set old --uid '' withdraw > Withdraw - - 4294967295 set old without --uid '' withdraw
dicomdir withdraw set --strict old --quiet 1.2 --dry-run > \
Withdraw - - 4294967295 set old without 1.2 with strict with dry-run with quiet
dicomdir withdraw set old 1.2 --json > Withdraw - - 4294967295 set old without 1.2 with json
dicomdir stage pile a.dcm > Stage - - 4294967295 pile a.dcm
dicomdir stage --files0-from list --from folder pile --quiet > \
Stage - - 4294967295 pile from list below folder with quiet
dicomdir stage pile b.dcm a.dcm --json --verbose > Stage - - 4294967295 pile b.dcm a.dcm with verbose with json
dicomdir stage -- pile --from > Stage - - 4294967295 pile --from
dicomdir stage -k pile a.dcm > Stage - - 4294967295 pile a.dcm with keep-going
dicomdir stage pile a.dcm --keep-going --from f > Stage - - 4294967295 pile a.dcm below f with keep-going
dicomdir publish out pile > Publish - - 4294967295 out pile
dicomdir publish --link --from '' out b a --id A --max-bytes 1K > Publish A - 1024 out b a below '' with link
dicomdir publish out --files0-from list --strict --dry-run --uid 1.2 > \
Publish - 1.2 4294967295 out from list with strict with dry-run
dicomdir check set > Check - - 4294967295 set
dicomdir check --quiet set > Check - - 4294967295 set with quiet
dicomdir check --verbose set --quiet > Check - - 4294967295 set with quiet with verbose
dicomdir check -- --id > Check - - 4294967295 --id
dicomdir check --keys set > Check - - 4294967295 set with keys
dicomdir check set --keys > Check - - 4294967295 set with keys
dicomdir check --keys -- --keys > Check - - 4294967295 --keys with keys
dicomdir check -- --keys > Check - - 4294967295 --keys
dicomdir check --strict set > Check - - 4294967295 set with strict
dicomdir check --quiet --strict --keys set > Check - - 4294967295 set with keys with strict with quiet
dicomdir check -- --strict > Check - - 4294967295 --strict
dicomdir check --json set > Check - - 4294967295 set with json
dicomdir list set > List - - 4294967295 set
dicomdir list '' > List - - 4294967295 ''
dicomdir list --long set > List - - 4294967295 set with long
dicomdir list --verbose set > List - - 4294967295 set with verbose
dicomdir list --json set --long > List - - 4294967295 set with long with json
dicomdir > 2 true
dicomdir build --uid 2.25.1 set image.dcm > 2 true
dicomdir index > 2 true
dicomdir index set > 2 true
dicomdir index --uid 2.25.1 > 2 true
dicomdir index --id DISC1 --uid 2.25.1 set > 2 true
dicomdir index --max-bytes 4294967296 set image.dcm > 2 true
dicomdir index --max-bytes=-1 set image.dcm > 2 true
dicomdir index --max-bytes -1 set image.dcm > 2 true
dicomdir index --max-bytes '' set image.dcm > 2 true
dicomdir index --max-bytes 1e3 set image.dcm > 2 true
dicomdir index --max-bytes 4G set image.dcm > 2 true
dicomdir merge --max-bytes 4096M set a > 2 true
dicomdir withdraw --max-bytes 4194304K out set 1.2 > 2 true
dicomdir index --max-bytes 4194304k set image.dcm > 2 true
dicomdir index --max-bytes k set image.dcm > 2 true
dicomdir index --max-bytes 18446744073709551617K set image.dcm > 2 true
dicomdir index --max-bytes K set image.dcm > 2 true
dicomdir index --max-bytes 1KM set image.dcm > 2 true
dicomdir index --max-bytes 1KB set image.dcm > 2 true
dicomdir index --max-bytes 1m set image.dcm > 2 true
dicomdir index --max-bytes 1g set image.dcm > 2 true
dicomdir index --max-bytes 1.5G set image.dcm > 2 true
dicomdir index --max-bytes '1 K' set image.dcm > 2 true
dicomdir index --max-bytes=-1K set image.dcm > 2 true
dicomdir index --max-bytes 1T set image.dcm > 2 true
dicomdir index --max-bytes 4G set > 2 true
dicomdir index --max-bytes 12 --max-bytes 13 set image.dcm > 2 true
dicomdir index --uid 2.25.1 --uid 2.25.1 set image.dcm > 2 true
dicomdir index --id DISC1 --id DISC2 set image.dcm > 2 true
dicomdir index --out set image.dcm > 2 true
dicomdir --uid 2.25.1 index set image.dcm > 2 true
dicomdir index set image.dcm --uid > 2 true
dicomdir index set image.dcm --max-bytes > 2 true
dicomdir index --strict set > 2 true
dicomdir index --strict --strict set image.dcm > 2 true
dicomdir index --json --json set image.dcm > 2 true
dicomdir merge --json=true set a > 2 true
dicomdir --json list set > 2 true
dicomdir index --strict=true set image.dcm > 2 true
dicomdir index -s set image.dcm > 2 true
dicomdir --strict index set image.dcm > 2 true
dicomdir index --files0-from list > 2 true
dicomdir index out --files0-from > 2 true
dicomdir index --files0-from a --files0-from b out > 2 true
dicomdir withdraw --files0-from list out set 1.2 > 2 true
dicomdir check --files0-from list set > 2 true
dicomdir list --files0-from list set > 2 true
dicomdir index --long out a.dcm > 2 true
dicomdir check --long a > 2 true
dicomdir check --dry-run a > 2 true
dicomdir list --quiet a > 2 true
dicomdir check --strict --strict a > 2 true
dicomdir check --strict=true a > 2 true
dicomdir list --strict a > 2 true
dicomdir merge > 2 true
dicomdir merge out > 2 true
dicomdir merge --max-bytes 4294967296 out set > 2 true
dicomdir merge --link out > 2 true
dicomdir merge --link --link out set > 2 true
dicomdir index --link out a.dcm > 2 true
dicomdir withdraw --link out set 1.2 > 2 true
dicomdir check --link a > 2 true
dicomdir list --link a > 2 true
dicomdir withdraw > 2 true
dicomdir withdraw out > 2 true
dicomdir withdraw out set > 2 true
dicomdir withdraw --uid 2.25.1 out set > 2 true
dicomdir withdraw --instance 1.2 out set > 2 true
dicomdir withdraw --max-bytes 4294967296 out set 1.2 > 2 true
dicomdir stage > 2 true
dicomdir stage pile > 2 true
dicomdir stage --from folder pile > 2 true
dicomdir stage --strict pile a.dcm > 2 true
dicomdir stage --dry-run pile a.dcm > 2 true
dicomdir stage --link pile a.dcm > 2 true
dicomdir stage -k -k pile a.dcm > 2 true
dicomdir stage --id A pile a.dcm > 2 true
dicomdir stage --max-bytes 7 pile a.dcm > 2 true
dicomdir stage --from a --from b pile a.dcm > 2 true
dicomdir publish > 2 true
dicomdir publish out > 2 true
dicomdir publish out --from folder > 2 true
dicomdir publish -k out pile > 2 true
dicomdir publish --max-bytes 4G out pile > 2 true
dicomdir index --from folder out a.dcm > 2 true
dicomdir merge --from folder out set > 2 true
dicomdir check > 2 true
dicomdir check a b > 2 true
dicomdir check --uid 2.25.1 a > 2 true
dicomdir check --keys > 2 true
dicomdir check --keys --keys a > 2 true
dicomdir check --keys=true a > 2 true
dicomdir check -k a > 2 true
dicomdir --keys check a > 2 true
dicomdir index --keys out a.dcm > 2 true
dicomdir merge out --keys set > 2 true
dicomdir withdraw out set 1.2 --keys > 2 true
dicomdir list --keys a > 2 true
dicomdir list > 2 true
dicomdir list a b > 2 true
dicomdir list --max-bytes 7 a > 2 true
dicomdir help build > 2 true
dicomdir --version > 0 false
dicomdir --help > 0 false
dicomdir -h > 0 false
dicomdir help > 0 false
dicomdir help index > 0 false
dicomdir index --help > 0 false
dicomdir index -h > 0 false
dicomdir merge -h > 0 false
dicomdir withdraw -h > 0 false
dicomdir stage --help > 0 false
dicomdir help publish > 0 false
dicomdir check --help > 0 false
dicomdir help list > 0 false";

/// Appends a word, an empty one as `''`.
fn push_word(text: &mut String, word: &str) -> Result<(), Fail> {
    text.push(' ')?;
    text.push_str(if word.is_empty() { "''" } else { word })?;
    Ok(())
}

fn push_words(text: &mut String, words: &[String]) -> Result<(), Fail> {
    for word in words {
        push_word(text, word.as_str())?;
    }
    Ok(())
}

fn push_option(text: &mut String, value: Option<&String>) -> Result<(), Fail> {
    match value {
        Some(value) => push_word(text, value.as_str()),
        None => push_word(text, "-"),
    }
}

fn in_words(alloc: Global, asked: &Asked) -> Result<String, Fail> {
    let (verb, max_bytes) = (asked.verb, asked.max_bytes);
    let mut text = format!(in alloc; "{verb:?}")?;
    push_option(&mut text, asked.id.as_ref())?;
    push_option(&mut text, asked.uid.as_ref())?;
    let number = format!(in alloc; "{max_bytes}")?;
    push_word(&mut text, number.as_str())?;
    push_words(&mut text, &asked.paths)?;
    if !asked.uids.is_empty() {
        push_word(&mut text, "without")?;
    }
    push_words(&mut text, &asked.uids)?;
    if let Some(list) = &asked.files0_from {
        text.push_str(" from")?;
        push_word(&mut text, list.as_str())?;
    }
    if let Some(folder) = &asked.from {
        text.push_str(" below")?;
        push_word(&mut text, folder.as_str())?;
    }
    push_flags(&mut text, asked)?;
    Ok(text)
}

fn push_flags(text: &mut String, asked: &Asked) -> Result<(), Fail> {
    for (is_set, words) in [
        (asked.keys, " with keys"),
        (asked.strict, " with strict"),
        (asked.dry_run, " with dry-run"),
        (asked.quiet, " with quiet"),
        (asked.verbose, " with verbose"),
        (asked.long, " with long"),
        (asked.link, " with link"),
        (asked.keep_going, " with keep-going"),
        (asked.json, " with json"),
    ] {
        if is_set {
            text.push_str(words)?;
        }
    }
    Ok(())
}

fn refused(alloc: Global, fault: &LineFault) -> Result<String, Fail> {
    let LineFault::Refused(error) = fault else {
        return Err("no memory".into());
    };
    let (status, is_mistake) = (error.exit_code(), error.use_stderr());
    Ok(format!(in alloc; "{status} {is_mistake}")?)
}

/// Says what a line asks for, or how it is refused.
pub(crate) fn said(alloc: Global, answer: &Result<Asked, LineFault>) -> Result<String, Fail> {
    match answer {
        Ok(asked) => in_words(alloc, asked),
        Err(fault) => refused(alloc, fault),
    }
}

fn line(alloc: Global, question: &str) -> Result<String, Fail> {
    let words = words_of(alloc, question)?;
    let answer = read_words(alloc, words.as_slice());
    said(alloc, &answer)
}

#[test]
fn lines_are_taken_or_refused(rt: HostRuntime) -> Result<(), Fail> {
    let none: [String; 0] = [];
    assert!(rt; read_words(rt.alloc(), &none).is_err());
    ask_all(rt.alloc(), LINES, line)
}
