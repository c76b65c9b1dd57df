//! Answers that no end of this project gives, and that a caller has to understand.

use super::greetings::CALLER_STARTS;
use super::script::Act::{CallAgain, Hear, Timeout};
use super::script::Wire::{Close, Command, Data, InitA, InitB, InitC, Rr, Text};
use super::script::{Row, SILENCE, Script, Wire, play_all};
use super::{Given, Left, NO_WORK, NOTHING, SEND, SENDER, Task};
use uug_session::{End, Phase};

const SEND_Z: Task<'static> = Task::Send(b"x", b"z");

const TWO_JOBS: &[Given<'static>] = &[Given::File(b"x", b""), Given::Job(SEND), Given::Job(SEND_Z)];

const OFFER: Wire<'static> = Command(1, 0, b"S x y u - D.0 0644");

/// The link comes up, and the first job is offered.
const OFFERS_Y: Row<'static> = (Hear(&[InitC(2)]), &[OFFER]);

/// The file of the first job, which is empty, goes out.
const SENDS_Y: Row<'static> = (Hear(&[Command(1, 1, b"SY")]), &[Rr(1), Data(2, 1, b"")]);

const SCRIPTS: &[Script<'static>] = &[
    // none: the command goes out once more each time, until it is acknowledged, and then nothing does
    Script {
        start: CALLER_STARTS,
        has: SENDER,
        rows: &[
            OFFERS_Y,
            (Timeout(1), &[OFFER]),
            (Timeout(2), &[OFFER]),
            (Hear(&[Rr(1)]), SILENCE),
            (Timeout(1), SILENCE),
        ],
        phase: Phase::Talking,
        left: &[Left::Pending(SEND)],
    },
    // the called end wants to be master: the second job stays pending; and a third HY
    Script {
        start: CALLER_STARTS,
        has: TWO_JOBS,
        rows: &[
            OFFERS_Y,
            SENDS_Y,
            (
                Hear(&[Command(2, 2, b"CYM")]),
                &[Rr(2), Command(3, 2, b"H")],
            ),
            (
                Hear(&[Command(3, 3, b"HY")]),
                &[Rr(3), Command(4, 3, b"HY"), Close],
            ),
            (Hear(&[Command(4, 4, b"HY")]), SILENCE),
            (Hear(&[Close]), &[Text(b"OOOOOO")]),
        ],
        phase: Phase::Ended(End::Done),
        left: &[Left::Pending(SEND_Z), Left::Struck(SEND)],
    },
    // the first job stays pending, and is offered again in the next session alone
    Script {
        start: CALLER_STARTS,
        has: TWO_JOBS,
        rows: &[
            OFFERS_Y,
            SENDS_Y,
            (
                Hear(&[Command(2, 2, b"CN4")]),
                &[Rr(2), Command(3, 2, b"S x z u - D.0 0644")],
            ),
            (Hear(&[Command(3, 3, b"SY")]), &[Rr(3), Data(4, 3, b"")]),
            (Hear(&[Command(4, 4, b"CY")]), &[Rr(4), Command(5, 4, b"H")]),
            (
                Hear(&[Command(5, 5, b"HY")]),
                &[Rr(5), Command(6, 5, b"HY"), Close],
            ),
            (Hear(&[Close]), &[Text(b"OOOOOO")]),
            (CallAgain, SILENCE),
            (Hear(&[Text(b"Shere")]), &[Text(b"Sa")]),
            (Hear(&[Text(b"ROK"), Text(b"Pg")]), &[Text(b"Ug"), InitA(2)]),
            (Hear(&[InitA(2)]), &[InitB(0)]),
            (Hear(&[InitB(0)]), &[InitC(2)]),
            OFFERS_Y,
        ],
        phase: Phase::Talking,
        left: &[Left::Pending(SEND), Left::Struck(SEND_Z)],
    },
    // a third HY while the second waits for room
    Script {
        start: CALLER_STARTS,
        has: NO_WORK,
        rows: &[
            (Hear(&[InitC(1)]), &[Command(1, 0, b"H")]),
            (Hear(&[Command(1, 0, b"HY")]), &[Rr(1)]),
            (Hear(&[Command(2, 0, b"HY")]), &[Rr(2)]),
            (Hear(&[Rr(1)]), &[Command(2, 2, b"HY"), Close]),
        ],
        phase: Phase::Closing,
        left: NOTHING,
    },
];

// a command that is not repeated; a job that is struck or failed though it was to stay, or that stays though it was
// done; a job that is offered twice in a session, or never again; an answer out of turn that ends the session
#[test]
fn understands_other_answers(rt: HostRuntime) {
    play_all(&rt, rt.alloc(), SCRIPTS);
}
