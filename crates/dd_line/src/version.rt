/// The version of the program, and the form of its directories, which changes where the same sources would give other
/// bytes (docs/RELEASING.md). All that names the version reads it here.
pub(crate) const VERSION: &str = "1.1.0, form 1";
