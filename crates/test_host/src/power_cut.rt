//! What a disc holds after a power cut, if it promises what POSIX does and no more. The bytes of a file last once it
//! was stored, and a name once its folder was. All else may be there or not.

#[derive(Clone, Copy, PartialEq)]
pub(crate) enum Kind {
    File,
    Folder,
    Pipe,
    /// A link to a folder.
    Link,
    /// A file whose metadata says that it has no bytes.
    Silent,
}

/// What was made, and how much of it lasts.
pub(crate) struct Entry {
    pub(crate) path: String,
    pub(crate) kind: Kind,
    /// The index of the entry of its first name.
    pub(crate) node: usize,
    pub(crate) bytes: Vec<u8>,
    /// How many bytes last, and whether the name does.
    pub(crate) lasting: usize,
    pub(crate) is_named: bool,
}

// By hand, so that dropping it is one call.
impl Drop for Entry {
    fn drop(self) {
        let Entry {
            path: _path,
            kind: _,
            node: _,
            bytes: _bytes,
            lasting: _,
            is_named: _,
        } = self;
    }
}

/// The bytes of each file of a run whose power may be cut.
const WHOLE: usize = 3;

/// What may be there after a power cut.
#[derive(Clone, Copy, PartialEq)]
enum State {
    /// What lasts alone.
    Least,
    /// What lasts, each directory, and the folders above it.
    Worst,
    /// All.
    All,
}

pub(crate) fn parent(path: &str) -> &str {
    match path.rsplit_once('/') {
        Some((folder, _)) => folder,
        None => ".",
    }
}

fn is_below(path: &str, folder: &str) -> bool {
    match path.strip_prefix(folder) {
        Some(rest) => rest.starts_with('/'),
        None => false,
    }
}

fn is_directory(entry: &Entry) -> bool {
    match entry.path.as_str().rsplit_once('/') {
        Some((_, name)) => name == "DICOMDIR",
        None => entry.path.as_str() == "DICOMDIR",
    }
}

/// Says whether the entry is the other, or a folder above it.
fn leads_to(entry: &Entry, other: &Entry) -> bool {
    let (path, end) = (entry.path.as_str(), other.path.as_str());
    path == end || is_below(end, path)
}

fn is_there(entry: &Entry, entries: &[Entry], state: State) -> bool {
    match state {
        State::Least => entry.is_named,
        State::Worst => entry.is_named || leads_to_directory(entry, entries),
        State::All => true,
    }
}

fn leads_to_directory(entry: &Entry, entries: &[Entry]) -> bool {
    for other in entries {
        if is_directory(other) && leads_to(entry, other) {
            return true;
        }
    }
    false
}

fn length(file: &Entry, state: State) -> usize {
    match state {
        State::Least => file.lasting,
        State::Worst if !is_directory(file) => file.lasting,
        _ => file.bytes.len(),
    }
}

/// Says whether the file is there in this state with all its bytes, and each folder above it.
fn is_whole(file: &Entry, entries: &[Entry], state: State) -> bool {
    for entry in entries {
        if leads_to(entry, file) && !is_there(entry, entries, state) {
            return false;
        }
    }
    length(file, state) == WHOLE
}

/// Says whether a directory is whole in this state, while a file is not.
fn is_broken(entries: &[Entry], state: State) -> bool {
    let mut has_directory = false;
    let mut has_loss = false;
    for entry in entries {
        if entry.kind == Kind::File {
            let is_whole = is_whole(entry, entries, state);
            has_directory = has_directory || is_whole && is_directory(entry);
            has_loss = has_loss || !is_whole;
        }
    }
    has_directory && has_loss
}

/// Says whether a power cut now may leave a whole directory without its images.
pub(crate) fn may_break(entries: &[Entry]) -> bool {
    entries.iter().any(is_directory)
        && (is_broken(entries, State::Least)
            || is_broken(entries, State::Worst)
            || is_broken(entries, State::All))
}

pub(crate) fn all_last(entries: &[Entry]) -> bool {
    for entry in entries {
        if !entry.is_named || entry.lasting != entry.bytes.len() {
            return false;
        }
    }
    true
}
