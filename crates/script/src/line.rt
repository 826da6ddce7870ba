//! Lines of a script, their words, and the command that a line says.
ghost use Rattle.std.specs.Prelude.{◌≡◌, IfOk, MatchOption};
ghost use Rattle.script.specs.declared.command.Command.{Command as Said};
ghost use Rattle.script.specs.Lines.{lines_of, words_of, texts_of, Says, SaysOne};

use crate::command::Command;
use crate::saying::said;
use crate::verb::Verb;
use std::alloc::{AllocError, Global};

/// The lines of a script, cut at each line feed. What follows the last line feed is a line too. The
/// error means that the heap is full.
pub fn lines(heap: Global, script: &str) -> Result<Vec<&str>, AllocError>
    ensures the_script_cut_at_its_line_feeds { IfOk result (λ ls. texts_of ls.items ≡ lines_of script.now) }
{
    script.split('\n').collect(heap)
}

/// The words of a line, cut at each space, so that two spaces make an empty word. The error means
/// that the heap is full.
pub fn words(heap: Global, line: &str) -> Result<Vec<&str>, AllocError>
    ensures the_line_cut_at_its_spaces { IfOk result (λ ws. texts_of ws.items ≡ words_of line.now) }
{
    line.split(' ').collect(heap)
}

/// The command that words say, or none.
pub fn command<'a>(words: &[&'a str]) -> Option<Command<'a>>
    ensures the_command_that_the_words_say_or_none { MatchOption result
        ((c : Said) → Says words.now c → ⊥) (λ c. Says words.now c) }
{
    let (name, rest) = words.split_first()?;
    said(Verb::named(name)?, rest)
}

/// Words say one command at most.
pub fn one_command_is_said()
    ensures words_say_one_command_at_most { SaysOne }
{}
