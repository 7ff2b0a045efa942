ghost use Rattle.std.specs.Prelude.{◌≡◌, option_map, option_copied};
ghost use Rattle.dd_mem_files.specs.MemFiles.{change_of, due, opened};

/// A change of a file at its second opening.
#[derive(Debug)]
pub(crate) struct Later {
    pub(crate) path: String,
    pub(crate) bytes: Vec<u8>,
    pub(crate) is_opened: bool,
}

// By hand, so that dropping it is one call.
impl Drop for Later {
    fn drop(self) {
        let Later {
            path: _path,
            bytes: _bytes,
            is_opened: _,
        } = self;
    }
}

/// Gives the bytes that the path gets at its next opening, where it changes then.
pub(crate) fn due_bytes<'a>(later: &'a Option<Later>, path: &str) -> Option<&'a [u8]>
    ensures { option_copied result ≡ due (option_map change_of later.now) path.now }
{
    match later {
        Some(later) if later.is_opened && later.path.as_str() == path => Some(&later.bytes),
        _ => None,
    }
}

pub(crate) fn count_opening(later: &mut Option<Later>, path: &str)
    ensures { option_map change_of later.new ≡ opened path.now (option_map change_of later.old) }
{
    if let Some(later) = later {
        if later.path.as_str() == path {
            later.is_opened = true;
        }
    }
}
