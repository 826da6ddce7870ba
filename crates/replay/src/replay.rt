//! A script, from its text to the text of its answers.
ghost use Rattle.std.specs.Prelude.{◌≡◌, ℕ, List, IfOk, string_bytes, Decides};
ghost use Rattle.replay.specs.Replays.{IsSilent, RepliesTo, Tells, Replays};

use crate::reply::Reply;
use crate::session::Session;
use crate::text::Numbered;
use script::line::{command, lines, words};
use std::alloc::{AllocError, Global};

// Whether a line has no answer: it is empty or a comment.
fn is_silent(line: &str) -> bool
    ensures { Decides result (IsSilent line.now) }
{
    line.is_empty() || line.as_bytes().first() == Some(&b'#')
}

// The reply to a line that is not silent.
fn reply_to(session: &mut Session, heap: Global, line: &str) -> Result<Reply, AllocError>
    ensures { IfOk result (λ reply. RepliesTo session.old line.now reply session.new) }
{
    let words = words(heap, line)?;
    match command(words.as_slice()) {
        Some(command) => session.act(heap, command),
        None => Ok(Reply::NoCall),
    }
}

// The text of the reply to a line.
fn told(
    session: &mut Session,
    heap: Global,
    number: usize,
    line: &str,
) -> Result<String, AllocError>
    ensures { IfOk result (λ text. Tells session.old number line.now (string_bytes text) session.new) }
{
    if is_silent(line) {
        return Ok(String::new(heap));
    }
    let reply = reply_to(session, heap, line)?;
    let numbered = Numbered {
        line: number,
        reply,
    };
    format!(in heap; "{numbered}")
}

/// The text of the answers to the lines of a script, in turn, from a new session. Refusals are text
/// too; the error means that the heap is full.
pub fn replay(heap: Global, script: &str) -> Result<String, AllocError>
    ensures answers_each_line_in_its_session { IfOk result (λ text. Replays script.now (string_bytes text)) }
    ensures no_other_text { IfOk result (λ text. (t : List ℕ) → Replays script.now t → t ≡ string_bytes text) }
{
    let lines = lines(heap, script)?;
    let mut session = Session::new(heap)?;
    let mut text = String::new(heap);
    for (place, line) in lines.iter().enumerate() {
        let told = told(&mut session, heap, place + 1, line)?;
        text.push_str(told.as_str())?;
    }
    Ok(text)
}
