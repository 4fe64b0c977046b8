// The program: lists questions and witnesses, runs steps, checks witnesses, rebuilds steps, marks answers, and compares files of cases.
#![tactic(auto)]

use commands::Command;
use commands::check::Check;
use commands::help::Help;
use commands::list_question::ListQuestion;
use commands::list_witness::ListWitness;
use commands::mark::MarkAnswer;
use commands::rebuild::Rebuild;
use commands::run::Run;
use commands::sample::Sample;
use commands::vectors::CompareVectors;
use failure::Failure;
use memories::MemoryKind;
use models::Model;
use std::env;
use std::process::ExitCode;
use words::named;

mod commands;
mod failure;
mod files;
mod forms;
mod mark_text;
mod memories;
mod models;
mod reading;
mod run_texts;
mod words;

/// The one operand of a command that takes a file.
fn file(operands: &[String]) -> Result<&str, Failure> {
    match operands {
        [path] => Ok(path.as_str()),
        [] => Err(Failure::FileWanting),
        _ => Err(Failure::TooManyOperands),
    }
}

/// The memory that an option and a name state; the table where they are left out.
fn memory(words: &[String]) -> Result<MemoryKind, Failure> {
    let [option, name] = words else {
        return Ok(MemoryKind::Table);
    };
    if option.as_str() != "--memory" {
        return Err(Failure::UnknownOption(option.clone()?));
    }
    named(name, Failure::UnknownMemory)
}

/// The run that operands state: two files, and the memory if it is not the table.
fn stated_run(operands: &[String]) -> Result<Run<'_>, Failure> {
    match operands {
        [] | [_] => Err(Failure::FilesWanting),
        [_, _, _] => Err(Failure::MemoryWanting),
        [question, steps, words @ ..] if words.len() <= 2 => Ok(Run {
            question: question.as_str(),
            steps: steps.as_str(),
            memory: memory(words)?,
        }),
        _ => Err(Failure::TooManyOperands),
    }
}

/// The check that operands state: a memory model and two files.
fn stated_check(operands: &[String]) -> Result<Check<'_>, Failure> {
    match operands {
        [word, question, witness] => Ok(Check {
            model: named(word, Failure::UnknownModel)?,
            question: question.as_str(),
            witness: witness.as_str(),
        }),
        [] | [_] | [_, _] => Err(Failure::CheckWanting),
        _ => Err(Failure::TooManyOperands),
    }
}

/// The rebuild that operands state: two files.
fn stated_rebuild(operands: &[String]) -> Result<Rebuild<'_>, Failure> {
    match operands {
        [question, witness] => Ok(Rebuild {
            question: question.as_str(),
            witness: witness.as_str(),
        }),
        [] | [_] => Err(Failure::FilesWanting),
        _ => Err(Failure::TooManyOperands),
    }
}

/// The marking that operands state: a question, a kind of answer, an answer, and the memory if it is not the table.
fn stated_mark(operands: &[String]) -> Result<MarkAnswer<'_>, Failure> {
    match operands {
        [] | [_] | [_, _] | [_, _, _, _] => Err(Failure::MarkWanting),
        [question, kind, answer, words @ ..] if words.len() <= 2 => Ok(MarkAnswer {
            question: question.as_str(),
            kind: named(kind, Failure::UnknownAnswer)?,
            answer: answer.as_str(),
            memory: memory(words)?,
        }),
        _ => Err(Failure::TooManyOperands),
    }
}

/// Carries out the command that the words state.
fn dispatch(rt: &HostRuntime, words: &[String]) -> Result<(), Failure> {
    let Some(first) = words.first() else {
        return Sample.run(rt);
    };
    let operands = &words[1..];
    match first.as_str() {
        "help" | "--help" => {
            if !operands.is_empty() {
                return Err(Failure::TooManyOperands);
            }
            Help.run(rt)
        }
        "question" => ListQuestion(file(operands)?).run(rt),
        "witness" => ListWitness(file(operands)?).run(rt),
        "run" => stated_run(operands)?.run(rt),
        "check" => stated_check(operands)?.run(rt),
        "rebuild" => stated_rebuild(operands)?.run(rt),
        "mark" => stated_mark(operands)?.run(rt),
        "vectors" => CompareVectors(file(operands)?).run(rt),
        _ => Err(Failure::UnknownCommand(first.clone()?)),
    }
}

fn run(rt: &HostRuntime) -> Result<(), Failure> {
    let args = env::args(rt).map_err(Failure::Arguments)?;
    let words: Vec<String> = args.skip(1).collect(rt.alloc())?;
    match dispatch(rt, &words) {
        Err(Failure::Refused(refused)) => Ok(rt.println(refused)?),
        answer => answer,
    }
}

fn main(rt: HostRuntime) -> ExitCode {
    match run(&rt) {
        Ok(()) => ExitCode::SUCCESS,
        Err(failure) => {
            let _ = eprintln!(rt; "cuckooshelf: {failure}");
            ExitCode::FAILURE
        }
    }
}
