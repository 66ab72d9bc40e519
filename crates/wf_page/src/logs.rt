// The record that a file has.
ghost use Rattle.std.specs.Prelude.{◌≡◌, ◌≢◌, ◌++◌, Err, IfErr, IfOk, Ok, option_map};
ghost use Rattle.wf_history.specs.declared.fault.HistoryFault.{HistoryFault};
ghost use Rattle.wf_page.specs.LogSeen.{log_tree};
ghost use Rattle.wf_page.specs.Logs.{first_log, log_line, log_of, log_words, of_definition};
ghost use Rattle.wf_reading.specs.ReadSeen.{def_tree};
ghost use Rattle.wf_record.specs.Seen.{record_tree};

use std::alloc::{AllocError, Global};
use wf_history::{HistoryFault, find, list};
use wf_reading::Def;
use wf_record::Record;

/// A record, or the line that says why there is none.
#[derive(Drop)]
pub enum Log {
    Found(Record),
    Missing(Vec<u8>),
}

// The first record of a file.
fn first_log(alloc: Global, bytes: &[u8]) -> Result<Record, HistoryFault>
    ensures found { IfOk result (λ r. first_log bytes.now ≡ Ok (record_tree r)) }
    ensures fault { IfErr result (λ f. f ≢ HistoryFault.Memory → first_log bytes.now ≡ Err f) }
{
    let listing = list(alloc, bytes)?;
    match listing.as_slice().first() {
        None => Err(HistoryFault::NoRun),
        Some(listed) => find(alloc, bytes, &listed.run),
    }
}

fn log_words(alloc: Global, fault: HistoryFault) -> Result<Vec<u8>, AllocError>
    ensures { IfOk result (λ words. words.items ≡ log_words fault) }
{
    match fault {
        HistoryFault::Line { number } => Ok(format!(in alloc; "Line {number}")?.into_bytes()),
        HistoryFault::NoRun => Ok(b"NoRun".to_vec(alloc)?),
        HistoryFault::Twice { first, second } => {
            Ok(format!(in alloc; "Twice {first} {second}")?.into_bytes())
        }
        HistoryFault::Memory => Ok(Vec::new(alloc)),
    }
}

fn log_line(alloc: Global, which: &[u8], words: &[u8]) -> Result<Vec<u8>, AllocError>
    ensures { IfOk result (λ line. line.items ≡ log_line which.now words.now) }
{
    let mut line = which.to_vec(alloc)?;
    line.extend_from_slice(words)?;
    line.push(b'\n')?;
    Ok(line)
}

// A record has to be one of the definition.
fn same_definition(alloc: Global, which: &[u8], def: &Def, log: Record) -> Result<Log, AllocError>
    ensures { IfOk result (λ l. log_tree l ≡ of_definition which.now (def_tree def.now) (Ok (record_tree log))) }
{
    if def.digest.bytes == log.digest.bytes {
        Ok(Log::Found(log))
    } else {
        let line = log_line(alloc, which, b"OtherDefinition")?;
        Ok(Log::Missing(line))
    }
}

/// The record of a definition that a file has, or the line that says why it has none; `None` stands for a file over its limit. The line
/// begins with the word that tells which file it is.
pub fn log_of(
    alloc: Global,
    which: &[u8],
    def: &Def,
    file: Option<Vec<u8>>,
) -> Result<Log, AllocError>
    ensures { IfOk result (λ l. log_tree l ≡ log_of which.now (def_tree def.now) (option_map (λ bytes. bytes.items) file)) }
{
    let bytes = match file {
        None => return Ok(Log::Missing(log_line(alloc, which, b"too long")?)),
        Some(bytes) => bytes,
    };
    match first_log(alloc, &bytes) {
        Ok(log) => same_definition(alloc, which, def, log),
        Err(HistoryFault::Memory) => Err(AllocError),
        Err(fault) => {
            let words = log_words(alloc, fault)?;
            Ok(Log::Missing(log_line(alloc, which, &words)?))
        }
    }
}
