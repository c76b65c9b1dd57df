ghost use Rattle.std.specs.Prelude.{◌≡◌, ◌≤◌, ◌&&◌, [], true, IfOk, IfSome};
ghost use Rattle.uug_conversation.specs.Choice.{choice};
ghost use Rattle.uug_conversation.specs.Jobs.{Lists, moved_once, pass, strike, fail};
ghost use Rattle.uug_conversation.specs.Holdings.{Holdings};
ghost use Rattle.uug_conversation.specs.Machine.{goes_on, on_send, send_verdict, on_request, on_hang_up, on_choice, on_unread, on_order, on_given_file_done, on_last_hang_up, sends_file, on_send_yes, move_refused, on_send_answer, on_sent_file_done, on_sent_job_done, on_request_answer, on_hang_up_answer, on_nothing_more, on_text};
ghost use Rattle.uug_conversation.specs.Holdings.{to_give};
ghost use Rattle.uug_conversation.specs.Reactions.{reply_of, said_before, gives_order, IsInRange, HasModeAnswered};
ghost use Rattle.uug_conversation.specs.Resuming.{front_of, position_heard, rest_from};
ghost use Rattle.uug_conversation.specs.Told.{heard, is_too_large, told_with};
ghost use Rattle.uug_talk.specs.Digests.{told_by_answer, told_by_order};
ghost use Rattle.uug_talk.specs.Answer.{answer_of};
ghost use Rattle.uug_talk.specs.Lenient.{is_held, is_refusable, or_wished};
ghost use Rattle.uug_talk.specs.Order.{HasMode};
ghost use Rattle.uug_talk.specs.declared.mode.TheConstants.{MODE_MAX};

use crate::awaits::Awaits;
use crate::choice::{choose, fetched_by, front_of, to_give, told_of, told_with};
use crate::job::Job;
use crate::queue::Queue;
use crate::reaction::{Reaction, Saying, Says};
use crate::spool::Spool;
use crate::verdict::Verdict;
use std::alloc::Allocator;
use uug_talk::{
    Answer, BadText, FileDigest, Name, Order, is_held, position_told, read_answer, read_order,
    read_wished, refused_letter, told_by_answer, told_by_order,
};

/// Continues as master: chooses the next job and says its command, after an answer if there is one.
pub(crate) fn go_on<A: Allocator, S: Spool>(
    queue: &mut Queue<A>,
    spool: &S,
    before: Option<Answer>,
) -> Reaction
    ensures reply { goes_on (S.holdings spool.now) queue.old (said_before before)
        ≡ reply_of (S.holdings spool.now) queue.new result [] }
    ensures mode { IsInRange result.awaits }
{
    let order = choose(queue, spool).unwrap_or(Order::HangUp);
    commands(spool, before, order)
}

// Makes the reaction that says a command with its file's announced digest, after an answer if there is one.
fn commands<S: Spool>(spool: &S, before: Option<Answer>, order: Order) -> Reaction
    ensures { result ≡ gives_order before order (told_with (S.holdings spool.now) order) }
{
    let told = told_with(spool, &order);
    Reaction::commands(before, order, told)
}

/// Returns the reaction to a whole text, by what the end awaits.
pub(crate) fn on_text<A: Allocator, S: Spool>(
    queue: &mut Queue<A>,
    spool: &S,
    awaits: Awaits,
    text: &[u8],
) -> Reaction
    ensures reply { on_text (S.holdings spool.now) awaits text.now queue.old
        ≡ reply_of (S.holdings spool.now) queue.new result [] }
    ensures mode { IsInRange result.awaits }
{
    match awaits {
        Awaits::Order => {
            let told = heard_by_order(spool, text);
            on_order(queue, spool, refused_letter(text), told, &read_order(text))
        }
        Awaits::GivenFileDone => on_given_file_done(read_answer(text)),
        Awaits::LastHangUp => on_last_hang_up(read_answer(text)),
        Awaits::SendAnswer => {
            let held = is_held(text) && spool.is_lenient();
            on_send_answer(
                queue,
                spool,
                held,
                heard_position(spool, text),
                read_answer(text),
            )
        }
        Awaits::SentFileDone => on_sent_job_done(queue, spool, read_answer(text)),
        Awaits::RequestAnswer => {
            let told = heard_by_answer(spool, text);
            on_request_answer(queue, spool, told, read_giving(spool, text))
        }
        Awaits::HangUpAnswer => on_hang_up_answer(read_answer(text)),
        Awaits::NothingMore => on_nothing_more(read_answer(text)),
        Awaits::SentFile { .. }
        | Awaits::AskedFile { .. }
        | Awaits::DroppedSentFile { .. }
        | Awaits::DroppedAskedFile { .. }
        | Awaits::Bad => Reaction::out_of_turn(),
    }
}

// Returns the digest that a command announces for its file, or none if this end compares no digests.
fn heard_by_order<S: Spool>(spool: &S, text: &[u8]) -> Option<FileDigest>
    ensures { result ≡ heard (S.holdings spool.now).digests (told_by_order text.now) }
{
    if spool.tells_digests() {
        told_by_order(text)
    } else {
        None
    }
}

// Returns the digest that an answer announces for its file, or none if this end compares no digests.
fn heard_by_answer<S: Spool>(spool: &S, text: &[u8]) -> Option<FileDigest>
    ensures { result ≡ heard (S.holdings spool.now).digests (told_by_answer text.now) }
{
    if spool.tells_digests() {
        told_by_answer(text)
    } else {
        None
    }
}

// Reads the answer to R. A lenient end also takes an M after the mode.
fn read_giving<S: Spool>(spool: &S, text: &[u8]) -> Result<Answer, BadText>
    ensures exact { result ≡ or_wished (answer_of text.now) (S.holdings spool.now).lenient text.now }
    ensures mode { IfOk result (λ answer. HasModeAnswered answer) }
{
    match read_answer(text) {
        Err(BadText::Mode) if spool.is_lenient() => read_wished(text),
        read => read,
    }
}

fn on_order<A: Allocator, S: Spool>(
    queue: &mut Queue<A>,
    spool: &S,
    letter: Option<u8>,
    told: Option<FileDigest>,
    order: &Result<Order, BadText>,
) -> Reaction
    ensures reply { on_order (S.holdings spool.now) letter told order.now queue.old
        ≡ reply_of (S.holdings spool.now) queue.new result [] }
    ensures mode { IfOk order.now (λ o. HasMode o) → IsInRange result.awaits }
{
    match order {
        Ok(
            Order::Send {
                source,
                target,
                temp,
                mode,
                ..
            },
        ) => {
            let target = spool.landing(source, target);
            on_send(spool, *fetched_by(source, temp), target, *mode, told)
        }
        Ok(Order::Request { source, .. }) => on_request(spool, *source),
        Ok(Order::HangUp) => on_hang_up(spool, choose(queue, spool)),
        Err(_) => on_unread(spool, letter),
    }
}

// Refuses a command that can't be read, in its own letter, if the end is lenient.
fn on_unread<S: Spool>(spool: &S, letter: Option<u8>) -> Reaction
    ensures reply { (l : Lists) → on_unread (S.holdings spool.now).lenient letter l
        ≡ reply_of (S.holdings spool.now) l result [] }
    ensures mode { IsInRange result.awaits }
{
    match letter {
        Some(letter) if spool.is_lenient() => Reaction::refuses(letter),
        _ => Reaction::out_of_turn(),
    }
}

fn on_send<S: Spool>(
    spool: &S,
    source: Name,
    target: Name,
    mode: u16,
    told: Option<FileDigest>,
) -> Reaction
    ensures reply { (l : Lists)
        → on_send (S.holdings spool.now).limit (send_verdict (S.holdings spool.now) target told)
        (front_of (S.holdings spool.now) source told) source target mode told l
        ≡ reply_of (S.holdings spool.now) l result [] }
    ensures mode { mode ≤ MODE_MAX → IsInRange result.awaits }
{
    match send_verdict(spool, &target, &told) {
        Verdict::Yes => {
            let position = front_of(spool, &source, &told).len() as u32;
            let awaits = Awaits::SentFile {
                source,
                target,
                mode,
                told,
                limit: spool.limit(),
            };
            Reaction::consents(awaits, position)
        }
        Verdict::Never => Reaction::answers(Awaits::Order, Answer::SendNever),
        Verdict::Later => Reaction::answers(Awaits::Order, Answer::SendLater),
    }
}

// Returns whether the file of a command is taken. A lenient end refuses one whose announced size is too large.
fn send_verdict<S: Spool>(spool: &S, target: &Name, told: &Option<FileDigest>) -> Verdict
    ensures { result ≡ send_verdict (S.holdings spool.now) target.now told.now }
{
    match spool.may_keep(target) {
        Verdict::Yes if spool.is_lenient() && is_too_large(spool.limit(), told) => Verdict::Never,
        verdict => verdict,
    }
}

fn is_too_large(limit: usize, told: &Option<FileDigest>) -> bool
    ensures { result ≡ is_too_large limit told.now }
{
    match told {
        Some(told) => limit < told.size as usize,
        None => false,
    }
}

fn on_request<S: Spool>(spool: &S, source: Name) -> Reaction
    ensures reply { (l : Lists) → on_request (S.holdings spool.now).digests
        (to_give (S.holdings spool.now) source) ((S.holdings spool.now).delayed source) l
        ≡ reply_of (S.holdings spool.now) l result [] }
    ensures mode { IsInRange result.awaits }
{
    match to_give(spool, &source) {
        Some(file) => Reaction {
            awaits: Awaits::GivenFileDone,
            says: Says::Two(
                Saying::Giving(file.mode, told_of(spool, &source)),
                Saying::File(source, 0),
            ),
        },
        None if spool.is_delayed(&source) => Reaction::answers(Awaits::Order, Answer::GiveLater),
        None => Reaction::answers(Awaits::Order, Answer::GiveNever),
    }
}

// Exchanges the roles if this end has a job to offer.
fn on_hang_up<S: Spool>(spool: &S, next: Option<Order>) -> Reaction
    ensures reply { (l : Lists) → on_hang_up (S.holdings spool.now) next l
        ≡ reply_of (S.holdings spool.now) l result [] }
    ensures mode { IsInRange result.awaits }
{
    match next {
        Some(order) => commands(spool, Some(Answer::HangNo), order),
        None => Reaction::answers(Awaits::LastHangUp, Answer::HangYes),
    }
}

fn on_given_file_done(answer: Result<Answer, BadText>) -> Reaction
    ensures reply { (h : Holdings) (l : Lists)
        → on_given_file_done answer l ≡ reply_of h l result [] }
    ensures mode { IsInRange result.awaits }
{
    match answer {
        Ok(Answer::DoneYes | Answer::DoneYesMaster | Answer::DoneNever | Answer::DoneLater) => {
            Reaction::quiet(Awaits::Order)
        }
        _ => Reaction::out_of_turn(),
    }
}

fn on_last_hang_up(answer: Result<Answer, BadText>) -> Reaction
    ensures reply { (h : Holdings) (l : Lists) → on_last_hang_up answer l ≡ reply_of h l result [] }
    ensures mode { IsInRange result.awaits }
{
    match answer {
        Ok(Answer::HangYes) => Reaction::quiet(Awaits::NothingMore),
        _ => Reaction::out_of_turn(),
    }
}

fn on_send_answer<A: Allocator, S: Spool>(
    queue: &mut Queue<A>,
    spool: &S,
    held: bool,
    position: usize,
    answer: Result<Answer, BadText>,
) -> Reaction
    ensures reply { on_send_answer (S.holdings spool.now) held position answer queue.old
        ≡ reply_of (S.holdings spool.now) queue.new result [] }
    ensures mode { IsInRange result.awaits }
{
    match answer {
        Ok(Answer::SendYes) => on_send_yes(queue, spool, position),
        Ok(Answer::SendNever) => {
            queue.fail_first();
            go_on(queue, spool, None)
        }
        Ok(Answer::SendLater) => {
            move_refused(queue, held);
            go_on(queue, spool, None)
        }
        _ => Reaction::out_of_turn(),
    }
}

// Reads from which byte on the file is asked for. An end that tells no digests reads past it.
fn heard_position<S: Spool>(spool: &S, text: &[u8]) -> usize
    ensures { result ≡ position_heard (S.holdings spool.now).digests text.now }
{
    if spool.tells_digests() {
        position_told(text) as usize
    } else {
        0
    }
}

// Strikes a Send job whose file the other end holds already, and puts off any other.
fn move_refused<A: Allocator>(queue: &mut Queue<A>, held: bool)
    ensures { queue.new ≡ moved_once (move_refused held queue.old.ahead) queue.old }
{
    match queue.first() {
        Some(Job::Send { .. }) if held => queue.strike_first(),
        _ => queue.pass_first(),
    }
}

// Sends the file of the first job, from that position on.
fn on_send_yes<A: Allocator, S: Spool>(queue: &Queue<A>, spool: &S, position: usize) -> Reaction
    ensures reply { on_send_yes (S.holdings spool.now) position queue.now.ahead queue.now
        ≡ reply_of (S.holdings spool.now) queue.now result [] }
    ensures mode { IsInRange result.awaits }
{
    match queue.first() {
        Some(Job::Send { source, temp, .. }) => send_file(
            spool,
            fetched_by(source, temp),
            position,
        ),
        _ => Reaction::out_of_turn(),
    }
}

fn send_file<S: Spool>(spool: &S, name: &Name, position: usize) -> Reaction
    ensures reply { (l : Lists)
        → sends_file (rest_from position (to_give (S.holdings spool.now) name.now)) l
        ≡ reply_of (S.holdings spool.now) l result [] }
    ensures mode { IsInRange result.awaits }
{
    match to_give(spool, name) {
        Some(file) if position <= file.bytes.len() => Reaction {
            awaits: Awaits::SentFileDone,
            says: Says::One(Saying::File(*name, position)),
        },
        _ => Reaction::out_of_turn(),
    }
}

// Handles the result for the file that was sent, if the first job is a Send job.
fn on_sent_job_done<A: Allocator, S: Spool>(
    queue: &mut Queue<A>,
    spool: &S,
    answer: Result<Answer, BadText>,
) -> Reaction
    ensures reply { on_sent_job_done (S.holdings spool.now) queue.old.ahead answer queue.old
        ≡ reply_of (S.holdings spool.now) queue.new result [] }
    ensures mode { IsInRange result.awaits }
{
    match queue.first() {
        Some(Job::Send { .. }) => on_sent_file_done(queue, spool, answer),
        _ => Reaction::out_of_turn(),
    }
}

fn on_sent_file_done<A: Allocator, S: Spool>(
    queue: &mut Queue<A>,
    spool: &S,
    answer: Result<Answer, BadText>,
) -> Reaction
    ensures reply { on_sent_file_done (S.holdings spool.now) answer queue.old
        ≡ reply_of (S.holdings spool.now) queue.new result [] }
    ensures mode { IsInRange result.awaits }
{
    match answer {
        Ok(Answer::DoneYes) => {
            queue.strike_first();
            go_on(queue, spool, None)
        }
        Ok(Answer::DoneYesMaster) => {
            queue.strike_first();
            Reaction::commands(None, Order::HangUp, None)
        }
        Ok(Answer::DoneNever) => {
            queue.fail_first();
            go_on(queue, spool, None)
        }
        Ok(Answer::DoneLater) => {
            queue.pass_first();
            go_on(queue, spool, None)
        }
        _ => Reaction::out_of_turn(),
    }
}

fn on_request_answer<A: Allocator, S: Spool>(
    queue: &mut Queue<A>,
    spool: &S,
    told: Option<FileDigest>,
    answer: Result<Answer, BadText>,
) -> Reaction
    ensures reply { on_request_answer (S.holdings spool.now) told answer queue.old
        ≡ reply_of (S.holdings spool.now) queue.new result [] }
    ensures mode { IfOk answer (λ a. HasModeAnswered a) → IsInRange result.awaits }
{
    match answer {
        Ok(Answer::GiveYes(mode)) => Reaction::quiet(Awaits::AskedFile {
            mode,
            told,
            limit: spool.limit(),
        }),
        Ok(Answer::GiveNever) => {
            queue.fail_first();
            go_on(queue, spool, None)
        }
        Ok(Answer::GiveLater) => {
            queue.pass_first();
            go_on(queue, spool, None)
        }
        _ => Reaction::out_of_turn(),
    }
}

// Handles the answer to H. If the roles are exchanged, this end is then the slave.
fn on_hang_up_answer(answer: Result<Answer, BadText>) -> Reaction
    ensures reply { (h : Holdings) (l : Lists)
        → on_hang_up_answer answer l ≡ reply_of h l result [] }
    ensures mode { IsInRange result.awaits }
{
    match answer {
        Ok(Answer::HangYes) => Reaction::answers(Awaits::NothingMore, Answer::HangYes),
        Ok(Answer::HangNo) => Reaction::quiet(Awaits::Order),
        _ => Reaction::out_of_turn(),
    }
}

fn on_nothing_more(answer: Result<Answer, BadText>) -> Reaction
    ensures reply { (h : Holdings) (l : Lists) → on_nothing_more answer l ≡ reply_of h l result [] }
    ensures mode { IsInRange result.awaits }
{
    match answer {
        Ok(Answer::HangYes) => Reaction::quiet(Awaits::NothingMore),
        _ => Reaction::out_of_turn(),
    }
}
