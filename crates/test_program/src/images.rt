//! Where the regions are of a store with two sectors for a checkpoint and 516 for a journal, and
//! bytes that may be there.

/// A sector, and the bytes with which it begins from now on.
pub(crate) type Change = (u64, &'static [u8]);

/// A gate that is open.
pub(crate) const OPEN: &[u8] = &[0xa7];

/// A gate that is closed.
pub(crate) const CLOSED: &[u8] = &[0];

/// The sector of the title.
pub(crate) const TITLE: u64 = 0;

/// The first sector of the first half's checkpoint.
pub(crate) const FIRST_AREA: u64 = 1;

/// The sector of its gate.
pub(crate) const FIRST_GATE: u64 = 3;

/// The first sector of its journal.
pub(crate) const FIRST_JOURNAL: u64 = 4;

/// The first sector of the second half's checkpoint.
pub(crate) const SECOND_AREA: u64 = 520;

/// The sector of its gate.
pub(crate) const SECOND_GATE: u64 = 522;

/// How many sectors the store takes.
pub(crate) const SECTORS: u64 = 1039;

/// A checkpoint of version 2 and epoch 1, at place 0, with no rows.
pub(crate) const EPOCH_1: &[u8] = b"PCKP\x00\x00\x00\x02\x00\x00\x00\x00\x00\x00\x00\x01\
\x00\x00\x00\x00\x00\x00\x00\x00\x00\x00\x00\x00\x00\x00\x00\x00";

/// A checkpoint of version 2 and epoch 0, at place 0, with no rows.
pub(crate) const EPOCH_0: &[u8] = b"PCKP\x00\x00\x00\x02\x00\x00\x00\x00\x00\x00\x00\x00\
\x00\x00\x00\x00\x00\x00\x00\x00\x00\x00\x00\x00\x00\x00\x00\x00";

/// A checkpoint of version 2 and epoch 2, at place 0, with no rows.
pub(crate) const EPOCH_2: &[u8] = b"PCKP\x00\x00\x00\x02\x00\x00\x00\x00\x00\x00\x00\x02\
\x00\x00\x00\x00\x00\x00\x00\x00\x00\x00\x00\x00\x00\x00\x00\x00";

/// The title of a store whose journals have a sector more: it has 1,041 sectors.
pub(crate) const LARGER: &[u8] = b"SCPATHDB\x00\x00\x00\x01\x00\x00\x00\x02\x00\x00\x02\x05";

/// A sector of zeros.
pub(crate) const ZEROS: &[u8] = &[0; 512];

/// A group of one command, the purge at moment 5, at place 0.
pub(crate) const PURGE: &[u8] = b"\x01\x01\x00\x00\x00\x00\x00\x0d\x00\x00\x00\x00\x00\x00\x00\x00\
\x00\x00\x00\x09\x02\x00\x00\x00\x00\x00\x00\x00\x05";

/// That group, and 1 in the place of the zero after it.
pub(crate) const PURGE_AND_A_BYTE: &[u8] =
    b"\x01\x01\x00\x00\x00\x00\x00\x0d\x00\x00\x00\x00\x00\x00\x00\x00\
\x00\x00\x00\x09\x02\x00\x00\x00\x00\x00\x00\x00\x05\x01";

/// The same group at place 1.
pub(crate) const PURGE_AT_1: &[u8] =
    b"\x01\x01\x00\x00\x00\x00\x00\x0d\x00\x00\x00\x00\x00\x00\x00\x01\
\x00\x00\x00\x09\x02\x00\x00\x00\x00\x00\x00\x00\x05";

/// The head of a group of 513 sectors, at place 1.
pub(crate) const LARGE_AT_1: &[u8] =
    b"\x01\x01\x00\x00\x00\x04\x00\x00\x00\x00\x00\x00\x00\x00\x00\x01";

/// The first bytes of a group at place 0 whose one command registers a down segment of 1,075 bytes.
/// In the segment's information is an unknown field of 983 zeros, which end where the group's third
/// sector begins: the entries are there.
pub(crate) const REGISTRATION: &[u8] =
    b"\x01\x01\x00\x00\x00\x00\x04\x3e\x00\x00\x00\x00\x00\x00\x00\x00\
\x00\x00\x04\x3a\x01\x01\x02\x00\x00\x04\x33\
\x0a\xe2\x07\x08\x80\xe2\xcf\xaa\x06\x10\x07\x7a\xd7\x07";

/// A seal at place 0.
pub(crate) const SEAL: &[u8] = b"\x02\x00\x00\x00\x00\x00\x00\x00\x00\x00\x00\x00\x00\x00\x00\x00";

/// The head of a checkpoint up to its version, which is 1.
pub(crate) const VERSION_1: &[u8] = b"PCKP\x00\x00\x00\x01";

/// The same with version 3.
pub(crate) const VERSION_3: &[u8] = b"PCKP\x00\x00\x00\x03";

/// The head of a checkpoint of version 1 up to its epoch, which is the last one.
pub(crate) const LAST_EPOCH: &[u8] = b"PCKP\x00\x00\x00\x01\xff\xff\xff\xff\xff\xff\xff\xff";
