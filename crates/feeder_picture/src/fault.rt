// Why there is no picture.
use fd_picture::Cause;
use thiserror::Error;

/// Why there is no picture.
#[derive(Clone, Copy, Debug, PartialEq, Eq, Error)]
pub(crate) enum PictureFault {
    /// The words behind the program's name aren't one word.
    #[error("usage: feeder_picture REPORT.csv")]
    Usage,
    /// There is no such file.
    #[error("the file is absent")]
    Absent,
    /// The file is there and could not be read.
    #[error("the file could not be read")]
    Unread,
    /// This line of the file, counted from 1, is the first that is no record of a report.
    #[error("no report: line {line}: {cause}")]
    NotReport { line: u64, cause: Cause },
    /// The picture could not be written whole.
    #[error("the picture could not be written")]
    Unwritten,
    /// Memory was refused.
    #[error("no memory")]
    NoMemory,
}
