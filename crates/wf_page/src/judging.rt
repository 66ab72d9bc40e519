// What is said of what files hold.
ghost use Rattle.std.specs.Prelude.{◌≡◌, IfOk, option_map};
ghost use Rattle.wf_page.specs.GivenSeen.{given_tree};
ghost use Rattle.wf_page.specs.Judged.{by_both, by_earlier, by_log, judged};
ghost use Rattle.wf_page.specs.LogSeen.{log_tree};
ghost use Rattle.wf_page.specs.SaidSeen.{said_tree};
ghost use Rattle.wf_reading.specs.ReadSeen.{def_tree};
ghost use Rattle.wf_record.specs.Seen.{record_tree};

use crate::loading::Given;
use crate::logs::{Log, log_of};
use crate::said::Said;
use std::alloc::{AllocError, Global};
use wf_drawn::draw;
use wf_files::{FormFault, definition_form, fault_line};
use wf_reading::Def;
use wf_record::Record;

// The page of a record beside an earlier one, or why that is none.
fn by_both(alloc: Global, def: &Def, log: &Record, earlier: Log) -> Result<Said, AllocError>
    ensures { IfOk result (λ said. said_tree said ≡ by_both (def_tree def.now) (record_tree log.now) (log_tree earlier)) }
{
    match earlier {
        Log::Missing(text) => Ok(Said { status: 7, text }),
        Log::Found(old) => {
            let text = draw(alloc, &def.top, log, Some(&old))?;
            Ok(Said { status: 0, text })
        }
    }
}

// The page of a record, beside that of an earlier file where there is one.
fn by_earlier(
    alloc: Global,
    def: &Def,
    log: &Record,
    earlier: Option<Option<Vec<u8>>>,
) -> Result<Said, AllocError>
    ensures { IfOk result (λ said. said_tree said ≡ by_earlier (def_tree def.now) (record_tree log.now)
        (option_map (λ file. option_map (λ bytes. bytes.items) file) earlier)) }
{
    match earlier {
        None => {
            let text = draw(alloc, &def.top, log, None)?;
            Ok(Said { status: 0, text })
        }
        Some(file) => {
            let old = log_of(alloc, b"earlier ", def, file)?;
            by_both(alloc, def, log, old)
        }
    }
}

fn by_log(
    alloc: Global,
    def: &Def,
    log: Log,
    earlier: Option<Option<Vec<u8>>>,
) -> Result<Said, AllocError>
    ensures { IfOk result (λ said. said_tree said ≡ by_log (def_tree def.now) (log_tree log)
        (option_map (λ file. option_map (λ bytes. bytes.items) file) earlier)) }
{
    match log {
        Log::Missing(text) => Ok(Said { status: 7, text }),
        Log::Found(log) => by_earlier(alloc, def, &log, earlier),
    }
}

/// What is said of what files hold: the page, or why there is none.
pub fn judge(alloc: Global, given: Given) -> Result<Said, AllocError>
    ensures { IfOk result (λ said. said_tree said ≡ judged (given_tree given)) }
{
    let Given {
        definition,
        log,
        earlier,
    } = given;
    match definition_form(alloc, definition) {
        Err(FormFault::Memory) => Err(AllocError),
        Err(fault) => {
            let text = fault_line(alloc, b"definition ", fault)?;
            Ok(Said { status: 1, text })
        }
        Ok(checked) => {
            let log = log_of(alloc, b"record ", &checked.def, log)?;
            by_log(alloc, &checked.def, log, earlier)
        }
    }
}
