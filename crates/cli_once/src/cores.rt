//! The core ASes as a text.

ghost use Rattle.std.specs.Prelude.{IfOk, IfErr, OnOk};
ghost use Rattle.isd_as.specs.Text.{IsIsdAsText};
ghost use Rattle.cli_once.specs.Cores.{texts_of, AreCores, IsCoreList, RefusesText, RefusesTexts, RefusesList};

use crate::error::SessionFault;
use isd_as::{IaError, IsdAs, parse};
use std::alloc::Global;

/// The core ASes of a list of texts joined by commas. A text that is no ISD-AS is found without
/// memory.
pub fn cores_of(alloc: Global, list: &str) -> Result<Vec<IsdAs>, SessionFault>
    ensures ok { IfOk result (λ cores. AreCores (texts_of list.now) cores.items) }
    ensures err { IfErr result (RefusesList list.now) }
{
    check_texts(list)?;
    let mut cores = Vec::new(alloc);
    for text in list.split(',') {
        let core = core_of(text)?;
        cores.push(core).map_err(|_| SessionFault::Memory)?;
    }
    Ok(cores)
}

/// Judges the texts of a list, in their order, without memory.
fn check_texts(list: &str) -> Result<(), SessionFault>
    ensures ok { OnOk result (IsCoreList (texts_of list.now)) }
    ensures err { IfErr result (RefusesTexts list.now) }
{
    for text in list.split(',') {
        core_of(text)?;
    }
    Ok(())
}

fn core_of(text: &str) -> Result<IsdAs, SessionFault>
    ensures ok { IfOk result (IsIsdAsText text.now) }
    ensures err { IfErr result (RefusesText text.now) }
{
    match parse(text) {
        Ok(core) => Ok(core),
        Err(IaError::BadText) => Err(SessionFault::Text(IaError::BadText)),
        Err(IaError::TooLarge) => Err(SessionFault::Text(IaError::TooLarge)),
    }
}
