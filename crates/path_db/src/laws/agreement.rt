//! The rows after registrations, in any order and repeated.

ghost use Rattle.path_db.specs.Agreement.{RegistrationsCommute, RegistrationsRepeat};

use crate::laws::command::{
    commands_keep_database, database_is_canonical, keys_are_separate, register_leaves_newest,
};

/// Registrations of the same segments give the same rows, in any order and any number of times,
/// where no two different segments of one key have the same timestamp.
pub fn registrations_commute()
    ensures { RegistrationsCommute }
{
    keys_are_separate();
    register_leaves_newest();
    database_is_canonical();
    commands_keep_database();
}

/// A registration whose segments were all registered before changes nothing.
pub fn registrations_repeat()
    ensures { RegistrationsRepeat }
{
    keys_are_separate();
    register_leaves_newest();
    database_is_canonical();
    commands_keep_database();
}
