//! The tests of workflows that lie in files beside them, run and reported.
//!
//! `serve_tests` takes the words of the command: files of tests (`wf_suite`). It reads each of them, and all files that they name, before
//! any test runs; a file that can't be read or isn't one is told by its name, and nothing runs. Then each test's command is made and handed
//! to the program that is lent (`Program`), over files in memory that hold what the test names, under names of their own. How it ended is
//! judged by `wf_judged`, and the report of all tests is written by `wf_tap`.
//!
//! What a program says of words over files is the program's to tell (`Program::says`); that each test was judged by such an end is claimed
//! here. So the record that is compared is the line that the program writes for these words and files.
#![tactic(auto)]

mod command;
mod handed;
mod kept;
mod loaded;
mod loading;
mod names;
mod program;
mod running;
mod schedules;
mod serving;
mod sources;
mod stop;
mod words;

pub use kept::Kept;
pub use program::Program;
pub use serving::serve_tests;
