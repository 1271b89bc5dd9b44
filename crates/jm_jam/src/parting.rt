// Passes for the workers, split from the caller's and joined to it again.
ghost use Rattle.std.specs.Prelude.{◌≡◌, ◌<◌, ◌&&◌, [], ◌∷◌};
ghost use Rattle.jm_turn.specs.declared.view.Kind.TheVariants.{Opening, Split};
ghost use Rattle.jm_turn.specs.Views.{parted};
ghost use Rattle.jm_desk.specs.Sharing.{IsOf};
ghost use Rattle.jm_jam.specs.Parting.{IsPart, IsHand, IsCrew, IsFresh, AreSplit, in_order, all_done, Gathers};

use crate::crew::Backs;
use crate::hand::Hand;
use crate::job::Job;
use jm_cmds::Channel;
use jm_desk::{Desk, Pass};

// All workers before their work, in the order of the numbers of their passes.
#[derive(Drop)]
pub(crate) struct Crew {
    pub low: (Hand, Hand),
    pub high: (Hand, Hand),
    pub feedback: (Hand, Hand),
    pub sender: Hand,
}

// A pass for a worker. The look tells that no turn has its number.
fn part(desk: &Desk, pass: &mut Pass) -> Pass
    requires own { IsOf desk.now pass.old }
    requires opening { pass.old.view.kind ≡ Opening }
    requires room { pass.old.view.out < 4294967295 }
    ensures own { IsOf desk.now pass.new }
    ensures parted { pass.new ≡ record pass.old { view = parted pass.old.view } }
    ensures part { IsPart desk.now pass.old.view.seen pass.old.view.next result }
{
    let mut part = pass.split(desk);
    let _seen = desk.front(&mut part);
    part
}

// A worker with this job.
fn hand(desk: &Desk, pass: &mut Pass, job: Job) -> Hand
    requires own { IsOf desk.now pass.old }
    requires opening { pass.old.view.kind ≡ Opening }
    requires room { pass.old.view.out < 4294967295 }
    ensures own { IsOf desk.now pass.new }
    ensures parted { pass.new ≡ record pass.old { view = parted pass.old.view } }
    ensures hand { IsHand desk.now pass.old.view.seen pass.old.view.next job result }
{
    Hand {
        job,
        pass: part(desk, pass),
    }
}

// The worker that plays for this player.
fn player(desk: &Desk, pass: &mut Pass, number: u8) -> Hand
    requires own { IsOf desk.now pass.old }
    requires opening { pass.old.view.kind ≡ Opening }
    requires room { pass.old.view.out < 4294967295 }
    requires number { number < 16 }
    ensures own { IsOf desk.now pass.new }
    ensures parted { pass.new ≡ record pass.old { view = parted pass.old.view } }
    ensures hand { IsHand desk.now pass.old.view.seen pass.old.view.next (Job.Player number) result }
{
    hand(desk, pass, Job::Player(Channel::low(number)))
}

// All seven.
pub(crate) fn split_all(desk: &Desk, pass: &mut Pass) -> Crew
    requires own { IsOf desk.now pass.old }
    requires fresh { IsFresh pass.old }
    ensures own { IsOf desk.now pass.new }
    ensures crew { IsCrew desk.now pass.old.view.seen result }
    ensures parted { pass.new ≡ record pass.old { view = record pass.old.view { next = 8; out = 7 } } }
{
    let low = (player(desk, pass, 0), player(desk, pass, 1));
    let high = (player(desk, pass, 2), player(desk, pass, 3));
    let first = Job::Feedback { worker: 4, ssrc: 1 };
    let second = Job::Feedback { worker: 5, ssrc: 2 };
    let feedback = (hand(desk, pass, first), hand(desk, pass, second));
    Crew {
        low,
        high,
        feedback,
        sender: hand(desk, pass, Job::Sender),
    }
}

// Takes in one pass.
fn gather_one(desk: &Desk, pass: &mut Pass, back: (Pass, bool)) -> bool
    requires own { IsOf desk.now pass.old }
    requires opening { pass.old.view.kind ≡ Opening }
    requires other { IsOf desk.now back.0 }
    requires split { back.0.view.kind ≡ Split }
    ensures own { IsOf desk.now pass.new }
    ensures gathers { Gathers (back ∷ []) pass.old pass.new }
    ensures done { result ≡ back.1 }
{
    let (other, done) = back;
    pass.join(desk, other);
    done
}

// Takes in two.
fn gather_two(desk: &Desk, pass: &mut Pass, backs: ((Pass, bool), (Pass, bool))) -> bool
    requires own { IsOf desk.now pass.old }
    requires opening { pass.old.view.kind ≡ Opening }
    requires one { IsOf desk.now backs.0.0 × (backs.0.0.view.kind ≡ Split) }
    requires other { IsOf desk.now backs.1.0 × (backs.1.0.view.kind ≡ Split) }
    ensures own { IsOf desk.now pass.new }
    ensures gathers { Gathers (backs.0 ∷ backs.1 ∷ []) pass.old pass.new }
    ensures done { result ≡ (backs.0.1 && backs.1.1) }
{
    let (one, other) = backs;
    let first = gather_one(desk, pass, one);
    let second = gather_one(desk, pass, other);
    first && second
}

// Takes in all seven, and says whether there was memory for all of their work.
pub(crate) fn gather(desk: &Desk, pass: &mut Pass, backs: Backs) -> bool
    requires own { IsOf desk.now pass.old }
    requires opening { pass.old.view.kind ≡ Opening }
    requires split { AreSplit desk.now (in_order backs) }
    ensures own { IsOf desk.now pass.new }
    ensures gathers { Gathers (in_order backs) pass.old pass.new }
    ensures done { result ≡ all_done (in_order backs) }
{
    let Backs {
        low,
        high,
        feedback,
        sender,
    } = backs;
    let low = gather_two(desk, pass, low);
    let high = gather_two(desk, pass, high);
    let feedback = gather_two(desk, pass, feedback);
    let sender = gather_one(desk, pass, sender);
    low && high && feedback && sender
}
