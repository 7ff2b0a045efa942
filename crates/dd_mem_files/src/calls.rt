/// A call that made files, or stored them.
#[derive(Debug, Drop)]
pub enum Call {
    /// A new file at this path, to which bytes were written until it ended.
    Create(String),
    /// The end of the file at this path.
    End(String),
    /// The file at the first path under the second one, too.
    Link(String, String),
    /// All ended files and all names were stored.
    Store,
}
