// How the program ends.
use sp_base::ByteList;
use sp_read_file::Unread;

/// How the program ends.
#[derive(Drop)]
pub enum Exit {
    /// The command line is faulty.
    Usage,
    /// The list was loaded; this is printed of its named files.
    Done(ByteList),
    /// It was not.
    Unread(Unread),
}
