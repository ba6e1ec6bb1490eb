//! Laws of the database after commands. Each law is the contract of a function that does nothing.
//! Nothing is assumed of the hash: different segments may have the same id.

ghost use Rattle.path_db.specs.CommandLaws.{KeysAreSeparate, CommandsAppend, NoRowsAreDatabase, CommandsKeepDatabase, DatabaseIsCanonical, RegisterLeavesNewest, PurgeLeavesValid, RemoveLeavesOthers};

/// The row under a key after commands depends on the row under that key before, and on no other
/// row.
pub fn keys_are_separate()
    ensures { KeysAreSeparate }
{}

/// The database after two lists of commands is the database after the first list and then the
/// second.
pub fn commands_append()
    ensures { CommandsAppend }
{}

/// The empty list of rows is a database, and after a command whose segments are whole a database is
/// one again.
pub fn commands_keep_database()
    ensures empty { NoRowsAreDatabase }
    ensures kept { CommandsKeepDatabase }
{}

/// Two databases with the same row under every key are the same list.
pub fn database_is_canonical()
    ensures { DatabaseIsCanonical }
{}

/// After a registration, the row under a key is the newest, by timestamp, of the row before and the
/// segments registered under the key. Where timestamps are equal, the earlier one is kept.
pub fn register_leaves_newest()
    ensures { RegisterLeavesNewest }
{}

/// The rows after a purge are exactly those that expire after its moment.
pub fn purge_leaves_valid()
    ensures { PurgeLeavesValid }
{}

/// The rows after a removal are exactly those of other keys.
pub fn remove_leaves_others()
    ensures { RemoveLeavesOthers }
{}
