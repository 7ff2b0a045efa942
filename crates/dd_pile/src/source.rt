/// A source of a pile.
#[derive(Clone, Copy)]
pub struct StageSource<'a> {
    /// Where it is opened.
    pub path: &'a str,
    /// Its name as the list says it, of any bytes.
    pub name: &'a [u8],
    /// Whether the name is no path, since it is not UTF-8. It is not opened then.
    pub is_bad_name: bool,
}
