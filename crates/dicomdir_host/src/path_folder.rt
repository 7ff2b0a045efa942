ghost use Rattle.std.specs.Prelude.{◌≡◌, ◌≢◌, ◌<◌, ◌≤◌, ◌-◌, length, slice_index};
ghost use Rattle.dicomdir_host.specs.Folders.{AreSlashes, HasNoSlash, IsBare, IsFolderOf};

fn slashes_before(path: &[u8], place: usize) -> usize
    requires { place ≤ length path.now }
    ensures bound { result ≤ place }
    ensures slashes { AreSlashes path.now result place }
    ensures end { 0 < result → slice_index path.now (result - 1) ≢ 47 }
{
    let mut start = place;
    while start > 0 && path[start - 1] == b'/' {
        start -= 1;
    }
    start
}

fn name_before(path: &[u8], place: usize) -> usize
    requires { place ≤ length path.now }
    ensures bound { result ≤ place }
    ensures name { HasNoSlash path.now result place }
    ensures end { 0 < result → slice_index path.now (result - 1) ≡ 47 }
{
    let mut start = place;
    while start > 0 && path[start - 1] != b'/' {
        start -= 1;
    }
    start
}

/// Gives the folder of the last name in a path. The current folder is `.`.
pub(crate) fn folder_of(path: &str) -> &str
    ensures { IsFolderOf path.now result.now }
{
    let bytes = path.as_bytes();
    let end = slashes_before(bytes, bytes.len());
    let start = name_before(bytes, end);
    let base = slashes_before(bytes, start);
    if start == 0 {
        return ".";
    }
    if base == 0 {
        return "/";
    }
    let (folder, _) = path.split_at(base);
    folder
}

/// Gives the path of a folder without the slashes after it. The empty path is the current folder, `.`.
pub(crate) fn bare(path: &str) -> &str
    ensures { IsBare path.now result.now }
{
    let bytes = path.as_bytes();
    let end = slashes_before(bytes, bytes.len());
    if bytes.is_empty() {
        return ".";
    }
    if end == 0 {
        return "/";
    }
    let (folder, _) = path.split_at(end);
    folder
}

/// Gives the part of the path before a `/` at this place.
pub(crate) fn before_slash(path: &str, at: usize) -> Option<&str> {
    match path.split_at_checked(at) {
        Some((before, rest)) if rest.starts_with('/') => Some(before),
        _ => None,
    }
}
