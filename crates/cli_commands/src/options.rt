//! What options of commands say.

ghost use Rattle.std.specs.Prelude.{◌≡◌, codes, IfOk, IfErr};
ghost use Rattle.clap.specs.Words.{first_value, found_of};
ghost use Rattle.cli_commands.specs.declared.ending.Ended.TheVariants.{Session};
ghost use Rattle.cli_commands.specs.Failures.{ended_by};
ghost use Rattle.cli_commands.specs.Options.{AreCoresOf, IsKeyOf, IsNumberOf, RefusesCores, RefusesKeyOf};

use crate::failure::Failure;
use clap::ArgMatches;
use cli_once::{SessionFault, cores_of, key_of};
use cli_words::{CORES, KEY};
use isd_as::{IsdAs, parse};
use seg_check::Keyed;
use std::alloc::Global;

/// The core ASes of the words, of which there are none where no option names them. A failure is
/// that of the first text that is no ISD-AS, or memory was refused.
pub fn cores_in<'a>(alloc: Global, words: &ArgMatches<'a>) -> Result<Vec<IsdAs>, Failure<'a>>
    ensures ok { IfOk result (λ cores. AreCoresOf (first_value (found_of words.now) (codes "cores")) cores.items) }
    ensures refused { IfErr result (λ failure. RefusesCores (first_value (found_of words.now) (codes "cores")) (ended_by failure)) }
{
    let Some(list) = words.get_str(CORES) else {
        return Ok(Vec::new(alloc));
    };
    match cores_of(alloc, list) {
        Ok(cores) => Ok(cores),
        Err(fault) => Err(no_cores(list, fault)),
    }
}

/// Why a list has no core ASes, by the fault of `cores_of`: a text that is no ISD-AS, of which the
/// first one is shown, or want of memory. No clause says which text is shown.
fn no_cores(list: &str, fault: SessionFault) -> Failure<'_>
    ensures { ended_by result ≡ Session fault }
{
    let SessionFault::Text(error) = fault else {
        return Failure::Session(fault);
    };
    for text in list.split(',') {
        if parse(text).is_err() {
            return Failure::Core(text, error);
        }
    }
    Failure::Session(fault)
}

/// The key of the words, if an option names one. A failure means that its text is no key, or that
/// memory was refused.
pub fn key_in<'a>(alloc: Global, words: &ArgMatches<'a>) -> Result<Option<Keyed>, Failure<'a>>
    ensures ok { IfOk result (λ key. IsKeyOf (first_value (found_of words.now) (codes "key")) key) }
    ensures refused { IfErr result (λ failure. RefusesKeyOf (first_value (found_of words.now) (codes "key")) (ended_by failure)) }
{
    let Some(text) = words.get_str(KEY) else {
        return Ok(None);
    };
    match key_of(alloc, text) {
        Ok(key) => Ok(Some(key)),
        Err(SessionFault::Hex) => Err(Failure::Key),
        Err(fault) => Err(Failure::Session(fault)),
    }
}

/// The number of an option, or another one where the option is left out.
pub fn u32_in(words: &ArgMatches<'_>, name: &str, other: u32) -> u32
    ensures { IsNumberOf (found_of words.now) name.now 32 other result }
{
    words.get_one::<u32>(name).unwrap_or(other)
}
