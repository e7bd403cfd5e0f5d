//! Replies of one line.
ghost use Rattle.std.specs.Prelude.{◌≡◌, IfOk};
ghost use Rattle.reply_text.specs.Replies.{line, numbered, broken_text, committed_text, already_text, facts_text, leveled_text, pending_text, choice_text, run_text};

use fact_model::Memory;
use replica_route::Choice;
use std::alloc::Global;

/// One fixed line.
pub fn plain(alloc: Global, text: &str) -> Result<Vec<u8>, Memory>
    ensures { IfOk result (λ reply. reply.items ≡ line text.now) }
{
    Ok(format!(in alloc; "{text}\n")?.into_bytes())
}

/// The reply to a batch that is accepted, with the number of facts afterwards.
pub fn committed(alloc: Global, count: u64) -> Result<Vec<u8>, Memory>
    ensures { IfOk result (λ reply. reply.items ≡ committed_text count) }
{
    numbered(alloc, "committed ", count)
}

/// The reply to a batch of this number that was accepted before.
pub fn already(alloc: Global, number: u64) -> Result<Vec<u8>, Memory>
    ensures { IfOk result (λ reply. reply.items ≡ already_text number) }
{
    numbered(alloc, "already ", number)
}

/// How many facts there are.
pub fn facts(alloc: Global, count: u64) -> Result<Vec<u8>, Memory>
    ensures { IfOk result (λ reply. reply.items ≡ facts_text count) }
{
    numbered(alloc, "facts ", count)
}

/// The reply to a level, with the number of values that have a parent.
pub fn leveled(alloc: Global, count: u64) -> Result<Vec<u8>, Memory>
    ensures { IfOk result (λ reply. reply.items ≡ leveled_text count) }
{
    numbered(alloc, "leveled ", count)
}

/// How many facts there are, and how many are pending.
pub fn pending(alloc: Global, count: u64, pending: u64) -> Result<Vec<u8>, Memory>
    ensures { IfOk result (λ reply. reply.items ≡ pending_text count pending) }
{
    Ok(format!(in alloc; "facts {count} pending {pending}\n")?.into_bytes())
}

/// Where files break the first rule that they break: the number of the file, and the offset in bytes.
pub fn broken(alloc: Global, file: u32, offset: u64) -> Result<Vec<u8>, Memory>
    ensures { IfOk result (λ reply. reply.items ≡ broken_text file offset) }
{
    Ok(format!(in alloc; "audit no {file} {offset}\n")?.into_bytes())
}

/// The view that a slice is answered from, counted from 1, and how its points lie there.
pub fn picked(alloc: Global, choice: Choice) -> Result<Vec<u8>, Memory>
    ensures { IfOk result (λ reply. reply.items ≡ choice_text choice) }
{
    let view = u64::from(choice.view) + 1;
    let suffix = choice.suffix;
    let run = run_word(choice.run);
    Ok(format!(in alloc; "view {view} suffix {suffix}{run}\n")?.into_bytes())
}

/// Whether the points are one part of the view's points, in words.
fn run_word(run: bool) -> &'static str
    ensures { result.now ≡ run_text run }
{
    if run { " run yes" } else { " run no" }
}

/// One line of a text and a number behind it.
pub(crate) fn numbered(alloc: Global, text: &str, number: u64) -> Result<Vec<u8>, Memory>
    ensures { IfOk result (λ reply. reply.items ≡ numbered text.now number) }
{
    Ok(format!(in alloc; "{text}{number}\n")?.into_bytes())
}
