//! The lines that tell what came of each mirror.
ghost use Rattle.std.specs.Prelude.{◌≡◌, ◌++◌, map, string_bytes, IfOk, OnOk, is_ok};
ghost use Rattle.std.specs.List.{list_all};
ghost use Rattle.fleet_shares.specs.Lines.{line_of, lines_of, refused_at};

use crate::answers::Answered;
use node_base::Refusal;
use std::alloc::{AllocError, Global};
use sync_core::SyncFault;

/// A line for each name and the answer in its place: `NAME: head N`, or `NAME: NUMBER TEXT` of a refusal.
pub fn answer_lines(
    alloc: Global,
    names: &[String],
    answers: &[Answered],
) -> Result<String, AllocError>
    ensures { IfOk result (λ text. string_bytes text ≡ lines_of (map string_bytes names.now) answers.now) }
{
    let mut text = String::new(alloc);
    push_lines(alloc, &mut text, names, answers)?;
    Ok(text)
}

fn push_lines(
    alloc: Global,
    text: &mut String,
    names: &[String],
    answers: &[Answered],
) -> Result<(), AllocError>
    ensures { OnOk result (string_bytes text.new
        ≡ string_bytes text.old ++ lines_of (map string_bytes names.now) answers.now) }
{
    let Some((name, names)) = names.split_first() else {
        return Ok(());
    };
    let Some((answer, answers)) = answers.split_first() else {
        return Ok(());
    };
    let line = line(alloc, name.as_str(), answer)?;
    text.push_str(line.as_str())?;
    push_lines(alloc, text, names, answers)
}

fn line(alloc: Global, name: &str, answer: &Answered) -> Result<String, AllocError>
    ensures { IfOk result (λ line. string_bytes line ≡ line_of name.now answer.now) }
{
    match answer {
        Ok(head) => {
            let head = head.get();
            format!(in alloc; "{name}: head {head}\n")
        }
        Err(fault) => {
            let number = fault.number();
            format!(in alloc; "{name}: {number} {fault}\n")
        }
    }
}

/// Whether no answer is a refusal.
pub fn are_done(answers: &[Answered]) -> bool
    ensures { result ≡ list_all is_ok answers.now }
{
    answers.iter().all(|answer| answer.is_ok())
}

/// Where there is a refusal, it is the answer in that place.
pub fn refuse_at(answers: &mut [Answered], place: usize, refusal: Option<Refusal>)
    ensures { answers.new ≡ refused_at answers.old place refusal }
{
    if place >= answers.len() {
        return;
    }
    match refusal {
        Some(refusal) => answers[place] = Err(SyncFault::Other(refusal)),
        None => {}
    }
}
