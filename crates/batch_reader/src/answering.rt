ghost use Rattle.std.specs.Prelude.{◌≡◌, ◌<◌, ℕ, List, length, map, IfOk};
ghost use Rattle.std.specs.List.{AllZip};
ghost use denote.Param.Send.{IsSync};
ghost use Rattle.lexicon_definitions.specs.Lexicons.{Lexicon as LexiconValue};
ghost use Rattle.batch_reader.specs.declared.asked.Asked.{Asked as AskedValue};
ghost use Rattle.batch_reader.specs.Replies.{AsksForPage, IsReplyTo, AreReplies, AreRepliesTo, AreFound};

use super::asked::Asked;
use super::replier::{Desk, Replier};
use annotated_trie::Lexicon;
use answer_printing::RuleTexts;
use outside::Gate;
use phoneme::{Line, Memory};
use std::alloc::Global;
use std::sync::atomic::{AtomicUsize, Ordering};
use std::thread::{Threads, available_parallelism, join};

/// There are at least so many workers, so that two lines are answered at once also where there is one processor.
const FEWEST_WORKERS: usize = 2;

/// There are no more workers than this, since their threads are begun one after another.
const MOST_WORKERS: usize = 64;

/// How many workers there are: one for each processor.
fn count_of_workers(rt: &impl Threads) -> usize {
    match available_parallelism(rt) {
        Ok(processors) => processors.get().clamp(FEWEST_WORKERS, MOST_WORKERS),
        Err(_unknown) => FEWEST_WORKERS,
    }
}

/// A place for each reply, with none in it yet.
#[tactic(auto, using(crate::proofs::FoundReplies::none_more))]
fn no_replies(alloc: Global, asked: &[Asked<'_>]) -> Result<Vec<Option<Vec<u8>>>, Memory>
    ensures { IfOk result (λ found. (lexicon : LexiconValue) (count : ℕ) → AreFound lexicon count asked.now found.items) }
{
    let mut found = Vec::with_capacity(alloc, asked.len())?;
    for _one in asked {
        found.push(None)?;
    }
    Ok(found)
}

/// The replies that one worker finds: it takes the next that is asked and that no worker has taken, and goes on until nothing is left. `next`
/// counts what was taken. Each reply stands at the place of what asks for it, whatever `next` tells.
#[tactic(auto, using(crate::proofs::FoundReplies::one_found, crate::proofs::FoundReplies::zip_length))]
fn find_replies<G: Gate>(
    alloc: Global,
    replier: &Replier<'_, G>,
    asked: &[Asked<'_>],
    next: &AtomicUsize,
) -> Result<Vec<Option<Vec<u8>>>, Memory>
    ensures ok { IfOk result (λ found. AreFound replier.now.lexicon.now.lexicon replier.now.count asked.now found.items) }
{
    let mut found = no_replies(alloc, asked)?;
    let mut desk = Desk::new(alloc, replier.lexicon)?;
    for _ in 0..asked.len() {
        let place = next.fetch_add(1, Ordering::SeqCst);
        if place >= asked.len() {
            break;
        }
        let (reply, kept) = replier.reply(alloc, &asked[place], place as u64, desk)?;
        found[place] = Some(reply);
        desk = kept;
    }
    Ok(found)
}

/// Puts the other replies that were found beside these.
#[tactic(auto, using(crate::proofs::FoundReplies::either_found, crate::proofs::FoundReplies::taken_out))]
fn put_together(found: &mut Vec<Option<Vec<u8>>>, others: &mut Vec<Option<Vec<u8>>>)
    requires { length others.old.items ≡ length found.old.items }
    ensures { (lexicon : LexiconValue) (count : ℕ) (asked : List AskedValue) → AreFound lexicon count asked found.old.items → AreFound lexicon count asked others.old.items → AreFound lexicon count asked found.new.items }
{
    for place in 0..found.len() {
        let own = found[place].take();
        let other = others[place].take();
        found[place] = own.or(other);
    }
}

/// The replies that so many workers find side by side. Each thread is begun from this one: the system often puts a thread that is begun
/// from a new one on the same processor as that.
#[cycle(workers)]
fn find_by_workers<R: Threads + Sync, G: Gate + Sync>(
    rt: &R,
    alloc: Global,
    replier: &Replier<'_, G>,
    asked: &[Asked<'_>],
    next: &AtomicUsize,
    workers: usize,
) -> Result<Vec<Option<Vec<u8>>>, Memory>
    ensures ok { IfOk result (λ found. AreFound replier.now.lexicon.now.lexicon replier.now.count asked.now found.items) }
{
    if workers < 2 {
        return find_replies(alloc, replier, asked, next);
    }
    let fewer = workers - 1;
    let find_first = || -> Result<Vec<Option<Vec<u8>>>, Memory>
        ensures { IfOk result (λ found. AreFound replier.entry.now.lexicon.now.lexicon replier.entry.now.count asked.entry.now found.items) }
    { find_replies(alloc, replier, asked, next) };
    let find_others = || -> Result<Vec<Option<Vec<u8>>>, Memory>
        requires { IsSync R.row × IsSync G.row }
        ensures { IfOk result (λ found. AreFound replier.entry.now.lexicon.now.lexicon replier.entry.now.count asked.entry.now found.items) }
    { find_by_workers(rt, alloc, replier, asked, next, fewer) };
    let (first, later) = join(rt, find_first, find_others);
    let mut found = first?;
    let mut others = later?;
    put_together(&mut found, &mut others);
    Ok(found)
}

/// The reply to what no worker has answered.
fn reply_late<G: Gate>(
    alloc: Global,
    replier: &Replier<'_, G>,
    asked: &Asked<'_>,
    place: u64,
) -> Result<Vec<u8>, Memory>
    ensures ok { IfOk result (λ text. IsReplyTo replier.now.lexicon.now.lexicon replier.now.count asked.now text.items) }
{
    let desk = Desk::new(alloc, replier.lexicon)?;
    let (reply, _desk) = replier.reply(alloc, asked, place, desk)?;
    Ok(reply)
}

/// The replies to all that is asked, of which these were found. What no worker has answered is answered here. That the count of what was
/// taken leaves nothing out is not proved, and nothing rests on it.
#[tactic(auto, using(crate::proofs::FoundReplies::zip_length))]
fn complete<G: Gate>(
    alloc: Global,
    replier: &Replier<'_, G>,
    asked: &[Asked<'_>],
    found: &mut Vec<Option<Vec<u8>>>,
) -> Result<Vec<Vec<u8>>, Memory>
    requires found { AreFound replier.now.lexicon.now.lexicon replier.now.count asked.now found.old.items }
    ensures ok { IfOk result (λ replies. AreRepliesTo replier.now.lexicon.now.lexicon replier.now.count asked.now (map (λ reply. reply.items) replies.items)) }
{
    let mut replies = Vec::with_capacity(alloc, asked.len())?;
    for (place, one) in asked.iter().enumerate() {
        let reply = match found[place].take() {
            Some(reply) => reply,
            None => reply_late(alloc, replier, one, place as u64)?,
        };
        replies.push(reply)?;
    }
    Ok(replies)
}

/// The reply to all that is asked, as the replier gives it: reply `i` is that to what stands at `i`. Workers, one for each processor and at
/// least 2, answer side by side by the runtime's join; each takes the next that no worker has taken, until all are taken. Just before a worker
/// begins what stands at `i`, counted from 0, it passes the gate with `i`. Refused only for want of memory.
pub(crate) fn answer_all<R: Threads + Sync, G: Gate + Sync>(
    rt: &R,
    alloc: Global,
    replier: &Replier<'_, G>,
    asked: &[Asked<'_>],
) -> Result<Vec<Vec<u8>>, Memory>
    ensures ok { IfOk result (λ replies. AreRepliesTo replier.now.lexicon.now.lexicon replier.now.count asked.now (map (λ reply. reply.items) replies.items)) }
{
    let next = AtomicUsize::new(0);
    let workers = count_of_workers(rt).min(asked.len());
    let mut found = find_by_workers(rt, alloc, replier, asked, &next, workers)?;
    complete(alloc, replier, asked, &mut found)
}

/// The lines, each of which is asked for its page.
#[tactic(auto, using(crate::proofs::RepliesInOrder::page_asked))]
fn ask_for_pages(alloc: Global, lines: &[Line]) -> Result<Vec<Asked<'_>>, Memory>
    ensures { IfOk result (λ asked. AllZip AsksForPage lines.now asked.items) }
{
    let mut asked = Vec::with_capacity(alloc, lines.len())?;
    for line in lines {
        asked.push(Asked::Line(line))?;
    }
    Ok(asked)
}

/// The printed page of each line, at most `count` answers a page: reply `i` is that of line `i`. The lines are answered as
/// `answer_all` answers them, with the texts of the lexicon's rules, which are made first; whoever has many lists of lines takes
/// a `Batch`. Refused only for want of memory.
#[tactic(auto, using(crate::proofs::RepliesInOrder::pages_replied))]
pub fn read_all<R: Threads + Sync, G: Gate + Sync>(
    rt: &R,
    alloc: Global,
    lexicon: &Lexicon,
    lines: &[Line],
    count: u32,
    gate: &G,
) -> Result<Vec<Vec<u8>>, Memory>
    ensures ok { IfOk result (λ replies. AreReplies lexicon.now.lexicon count lines.now (map (λ reply. reply.items) replies.items)) }
{
    let texts = RuleTexts::new(alloc, lexicon.rules())?;
    let replier = Replier {
        lexicon,
        texts: &texts,
        count,
        gate,
    };
    let asked = ask_for_pages(alloc, lines)?;
    answer_all(rt, alloc, &replier, asked.as_slice())
}
