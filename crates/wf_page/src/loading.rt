// The reading of the files.
ghost use Rattle.std.specs.Prelude.{◌≡◌, ◌∷◌, ◌++◌, [], IfErr, IfOk, option_map};
ghost use Rattle.wf_page.specs.GivenSeen.{given_tree};
ghost use Rattle.wf_page.specs.Seen.{asked_tree};
ghost use Rattle.wf_page.specs.Served.{MayGive, MayGiveAll, MayGiveEarlier};
ghost use Rattle.wf_page.specs.Stopped.{StopsAmong, StopsAt, StopsAtEarlier};

use crate::words::Asked;
use crate::{DEFINITION_LIMIT, RECORD_LIMIT};
use std::alloc::{AllocError, Global};
use wf_outside::{FileFault, Files};
use wf_val::Text;

/// Why nothing is said of the files.
#[derive(Drop)]
pub enum Stop {
    CannotRead(Text),
    Memory,
}

/// What the files hold; `None` stands for one over its limit.
#[derive(Drop)]
pub struct Given {
    pub definition: Option<Vec<u8>>,
    pub log: Option<Vec<u8>>,
    pub earlier: Option<Option<Vec<u8>>>,
}

// The bytes of a file.
fn load<F: Files>(
    alloc: Global,
    files: &mut F,
    name: &Text,
    limit: u64,
) -> Result<Option<Vec<u8>>, Stop>
    ensures gives { IfOk result (λ file. MayGive (F.held files.old) limit name.now (option_map (λ bytes. bytes.items) file)) }
    ensures calm { IfOk result (λ file. F.failed files.new ≡ F.failed files.old) }
    ensures stops { IfErr result (λ stop. StopsAt (F.failed files.old) (F.failed files.new) name.now stop) }
    ensures same { F.held files.new ≡ F.held files.old }
{
    match files.read(name, limit) {
        Ok(bytes) => Ok(Some(bytes)),
        Err(FileFault::TooLong) => Ok(None),
        Err(FileFault::Failed) => match name.copy(alloc) {
            Ok(name) => Err(Stop::CannotRead(name)),
            Err(_) => Err(Stop::Memory),
        },
        Err(FileFault::Memory) => Err(Stop::Memory),
    }
}

// The bytes of an earlier record's file, where one is named.
fn load_earlier<F: Files>(
    alloc: Global,
    files: &mut F,
    name: Option<&Text>,
) -> Result<Option<Option<Vec<u8>>>, Stop>
    ensures gives { IfOk result (λ file. MayGiveEarlier (F.held files.old) (option_map (λ n. n.now) name.entry)
        (option_map (λ f. option_map (λ bytes. bytes.items) f) file)) }
    ensures calm { IfOk result (λ file. F.failed files.new ≡ F.failed files.old) }
    ensures stops { IfErr result (λ stop. StopsAtEarlier (F.failed files.old) (F.failed files.new) (option_map (λ n. n.now) name.entry)
        stop) }
    ensures same { F.held files.new ≡ F.held files.old }
{
    match name {
        None => Ok(None),
        Some(name) => match load(alloc, files, name, RECORD_LIMIT) {
            Ok(file) => Ok(Some(file)),
            Err(stop) => Err(stop),
        },
    }
}

/// The bytes of all files that are asked for, in their order: the definition's, the record's and the earlier one's.
pub fn load_all<F: Files>(alloc: Global, files: &mut F, asked: &Asked) -> Result<Given, Stop>
    ensures gives { IfOk result (λ given. MayGiveAll (F.held files.old) (asked_tree asked.now) (given_tree given)) }
    ensures calm { IfOk result (λ given. F.failed files.new ≡ F.failed files.old) }
    ensures stops { IfErr result (λ stop. StopsAmong (F.failed files.old) (F.failed files.new) (asked_tree asked.now) stop) }
    ensures same { F.held files.new ≡ F.held files.old }
{
    let definition = match load(alloc, files, asked.definition, DEFINITION_LIMIT) {
        Ok(definition) => definition,
        Err(stop) => return Err(stop),
    };
    let log = match load(alloc, files, asked.log, RECORD_LIMIT) {
        Ok(log) => log,
        Err(stop) => return Err(stop),
    };
    match load_earlier(alloc, files, asked.earlier) {
        Ok(earlier) => Ok(Given {
            definition,
            log,
            earlier,
        }),
        Err(stop) => Err(stop),
    }
}
