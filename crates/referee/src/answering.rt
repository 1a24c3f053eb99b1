//! What the referee answers to the words of a command.
ghost use Rattle.std.specs.Prelude.{IfOk};
ghost use Rattle.std.specs.Option.{option_copied};
ghost use Rattle.referee.specs.Refereed.{words_of};
ghost use Rattle.referee.specs.Replies.{IsSaid, Replies, RepliesTo};
ghost use Rattle.words.specs.View.{HasPlies};

use crate::given_file::GivenFile;
use crate::word_list::word_list;
use foundation::Memory;
use io_ports::{MemSource, PollsOwed};
use one_shot_checks::Stop;
use one_shots::{Answer, Opened, answer_of, answer_refereed, is_refereed, open};
use std::alloc::Global;

/// What the referee answers.
#[derive(Drop)]
pub enum Reply {
    /// The status and the text of the program.
    Said(Answer),
    /// The command is a session, or takes threads or time: a referee does not answer it.
    NotRefereed,
}

// Nothing but memory can be missing, since the source never fails and there is no sink.
fn said(answer: Result<Answer, Stop>) -> Result<Reply, Memory>
    ensures { IsSaid answer result }
{
    match answer {
        Ok(answer) => Ok(Reply::Said(answer)),
        Err(_) => Err(Memory),
    }
}

// The answer to an input, where the words were read, and the file.
fn answer_opened(alloc: Global, opened: &Opened, input: &[u8]) -> Result<Reply, Memory>
    requires plies { HasPlies opened.now.asked.command }
    ensures { IfOk result (RepliesTo opened.now input.now) }
{
    if !is_refereed(&opened.asked.command) {
        return Ok(Reply::NotRefereed);
    }
    let mut source = MemSource::new(alloc, input, PollsOwed::Number(0), &[])?;
    said(answer_refereed(alloc, opened, &mut source))
}

/// The status and the text with which the program ends that is run with these words, where the file that they name has
/// these bytes, or is missing, and the input has those. Each line of `words` is a word.
///
/// # Errors
///
/// There was no memory.
pub fn reply_to(
    alloc: Global,
    words: &[u8],
    file: Option<&[u8]>,
    input: &[u8],
) -> Result<Reply, Memory>
    ensures { IfOk result (Replies (words_of words.now) (option_copied file.entry) input.now) }
{
    let words = word_list(alloc, words)?;
    let mut files = GivenFile { bytes: file };
    match open(alloc, words.as_slice(), &mut files) {
        Ok(opened) => answer_opened(alloc, &opened, input),
        Err(why) => said(answer_of(alloc, Err(why))),
    }
}
