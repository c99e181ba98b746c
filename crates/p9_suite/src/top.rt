// The top call.
ghost use Rattle.std.specs.Prelude.{◌≡◌, List};
ghost use Rattle.p9_base.specs.Calls.{Call, Did};
ghost use Rattle.p9_suite.specs.Reports.{Tells};
ghost use Rattle.p9_suite.specs.Scene.{counts, doing, objects, scene, telling};
ghost use Rattle.p9_suite.specs.Suite.{Answered, CommandComes, OfEveryCommand, Says, answer_of};
ghost use Rattle.p9_suite.specs.commands.{command_of};

use crate::answer::{Answer, Refusal};
use crate::commands::{command_of, perform};
use crate::report::{report, status};
use p9_base::{Files, Sink, Source, Words};
use std::alloc::Global;

// The answer of a command: what its last stage gives, or the refusal that ended it.
fn answer_of(outcome: Result<Answer, Refusal>) -> Answer
    ensures { result ≡ answer_of outcome }
{
    match outcome {
        Ok(answer) => answer,
        Err(why) => Answer::Refused(why),
    }
}

// What the command of the words answers.
fn answer<I: Source, O: Sink, F: Files>(
    alloc: Global,
    words: &Words,
    input: &mut I,
    out: &mut O,
    files: &mut F,
) -> Answer
    ensures { (calls : List Call)
        × Did (doing I.did O.did F.did) (objects input.old out.old files.old) calls (objects input.new out.new files.new)
        × CommandComes (command_of words.now) result calls }
{
    match command_of(words) {
        Some(command) => answer_of(perform(alloc, command, input, out, files)),
        None => Answer::Usage,
    }
}

/// Does what the words ask, tells its line on `err`, and answers the status. A fault of `err` changes
/// no status.
pub fn suite<I: Source, O: Sink, E: Sink, F: Files>(
    alloc: Global,
    words: &Words,
    input: &mut I,
    out: &mut O,
    err: &mut E,
    files: &mut F,
) -> u8
    // The calls on the source, the sink and the store are those by which the words' command comes to an
    // answer, and the status and the line are that answer's.
    ensures answer { Answered (scene (doing I.did O.did F.did) (telling I.left O.sofar F.held) (counts I.faults O.faults F.faults)
        (objects input.old out.old files.old) (objects input.new out.new files.new) words.now result
        (λ line. Tells E.sofar E.faults err.old err.new line)) }

    // What holds of every command: usage, the counts of faults, which names are written, what a refusal leaves.
    ensures always { OfEveryCommand (scene (doing I.did O.did F.did) (telling I.left O.sofar F.held) (counts I.faults O.faults F.faults)
        (objects input.old out.old files.old) (objects input.new out.new files.new) words.now result
        (λ line. Tells E.sofar E.faults err.old err.new line)) }

    // What the words' command says, by the table of commands: of `vi`, that its answer is that of the run of the
    // file's bytes; of `run`, that its answer is that of the files in the store and of their executable's run, and
    // that what it writes keeps the meaning of its C modules.
    ensures says { Says (scene (doing I.did O.did F.did) (telling I.left O.sofar F.held) (counts I.faults O.faults F.faults)
        (objects input.old out.old files.old) (objects input.new out.new files.new) words.now result
        (λ line. Tells E.sofar E.faults err.old err.new line)) }
{
    let answer = answer(alloc, words, input, out, files);
    report(err, &answer);
    status(&answer)
}
