// Asks what no program of this repository shows, or shows less exactly, of stored cases, and prints those that are answered
// otherwise than they must be. Standard input has a part for each subject: a line `== ` with its name, and behind it the cases,
// one a line: the answer that is wanted, ` :: `, and the question, each in the form that the subject's module tells. The last
// line of a part's answers says how many cases it had.
#![tactic(auto)]

mod batches;
mod declarations;
mod expressions;
mod fields;
mod find;
mod generator;
mod groups;
mod lines;
mod matches;
mod operators;
mod parts;
mod pieces;
mod runs;
mod searches;
mod statements;
mod tell;
mod texts;
mod token_sets;
mod tokens;
mod types;
mod units;
mod views;

use std::alloc::{AllocError, Global};
use std::io;

/// What cases are of.
#[derive(Clone, Copy)]
enum Subject {
    Batches,
    Generator,
    Groups,
    Lines,
    Matches,
    Operators,
    Parts,
    Pieces,
    Runs,
    Searches,
    Tokens,
    Views,
}

/// The subject of a part's first line.
fn subject_of(name: &str) -> Option<Subject> {
    match name {
        "batches" => Some(Subject::Batches),
        "generator" => Some(Subject::Generator),
        "groups" => Some(Subject::Groups),
        "lines" => Some(Subject::Lines),
        "matches" => Some(Subject::Matches),
        "operators" => Some(Subject::Operators),
        "parts" => Some(Subject::Parts),
        "pieces" => Some(Subject::Pieces),
        "runs" => Some(Subject::Runs),
        "searches" => Some(Subject::Searches),
        "tokens" => Some(Subject::Tokens),
        "views" => Some(Subject::Views),
        _ => None,
    }
}

/// Puts the answer to a question behind what is there.
fn answer(
    alloc: Global,
    subject: Subject,
    question: &str,
    got: &mut String,
) -> Result<(), AllocError> {
    match subject {
        Subject::Batches => batches::answer(alloc, question, got),
        Subject::Generator => generator::answer(alloc, question, got),
        Subject::Groups => groups::answer(alloc, question, got),
        Subject::Lines => lines::answer(alloc, question, got),
        Subject::Matches => matches::answer(alloc, question, got),
        Subject::Operators => operators::answer(alloc, question, got),
        Subject::Parts => parts::answer(alloc, question, got),
        Subject::Pieces => pieces::answer(alloc, question, got),
        Subject::Runs => runs::answer(alloc, question, got),
        Subject::Searches => searches::answer(alloc, question, got),
        Subject::Tokens => tokens::answer(alloc, question, got),
        Subject::Views => views::answer(alloc, question, got),
    }
}

/// What a case of the subject is answered, if that isn't what is wanted.
fn differs(
    alloc: Global,
    subject: Option<Subject>,
    case: &str,
) -> Result<Option<String>, AllocError> {
    let mut got = String::new(alloc);
    let Some(subject) = subject else {
        return Ok(Some(got));
    };
    let Some((wanted, question)) = case.split_once(" :: ") else {
        return Ok(Some(got));
    };
    answer(alloc, subject, question, &mut got)?;
    if got.as_str() == wanted {
        Ok(None)
    } else {
        Ok(Some(got))
    }
}

fn main(rt: HostRuntime) -> io::Result<()> {
    let mut subject: Option<Subject> = None;
    let mut cases: u64 = 0;
    for line in rt.lines(rt.alloc()) {
        let line = line?;
        let case = line.as_str();
        if let Some(name) = case.strip_prefix("== ") {
            if subject.is_some() {
                println!(rt; "{cases} cases")?;
            }
            subject = subject_of(name);
            cases = 0;
            print!(rt; "{name}: ")?;
        } else {
            if let Some(got) = differs(rt.alloc(), subject, case)? {
                let got = got.as_str();
                println!(rt; "{case} gives {got}")?;
            }
            cases = cases.saturating_add(1);
        }
    }
    println!(rt; "{cases} cases")?;
    Ok(())
}
