//! Reasons for which a path can't be read.

/// Why a path can't be read.
#[derive(Clone, Copy, Debug, PartialEq, Eq)]
pub enum Trouble {
    /// There is no such file.
    Missing,
    /// Reading it is not permitted.
    Forbidden,
    /// It is a folder.
    Folder,
    /// A word before a slash names a file.
    NoFolder,
    /// Symbolic links lead back to themselves.
    Loop,
    /// The path, or a name in it, is too long.
    LongName,
    /// The system has another reason, of this number.
    Coded(u32),
    /// Nothing is known of the reason.
    Other,
}
