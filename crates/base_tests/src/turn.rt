// What no clause says: that the calls come to an end, with many threads as with one.
ghost use Rattle.std.specs.Prelude.{◌≡◌};
ghost use Rattle.jm_turn.specs.declared.view.Stage.TheVariants.{Idle};
ghost use Rattle.jm_turn.specs.declared.view.Kind.TheVariants.{Opening};

use jm_turn::*;
use std::sync::Wait;
use std::test::*;
use std::thread;
use std::thread::Threads;

// How often it was counted up, modulo 2^64.
#[derive(Drop)]
struct Counter {
    count: u64,
}

impl Told for Counter {
    ghost use Rattle.std.specs.Prelude.{◌≡◌, ◌+◌, ◌%◌, length};

    type Turn = ();

    ghost stands = { λ first now turns. now.count ≡ (first.count + length turns) % 18446744073709551616 };
}

// Counted up once.
struct OneMore;

impl Entry<Counter> for OneMore {
    ghost what = { tt };
}

const EACH: u32 = 10_000;

fn up<R: Wait>(rt: &R, turn: &Turn<Counter>, pass: &mut Pass<Counter>)
    requires own { pass.old.table ≡ turn.now.table.shared.table_id }
    requires idle { pass.old.view.stage ≡ Idle }
    ensures { (pass.new.table ≡ pass.old.table) × (pass.new.view.stage ≡ Idle) × (pass.new.view.kind ≡ pass.old.view.kind) × (pass.new.view.out ≡ pass.old.view.out) }
{
    let Counter { count } = turn.take(rt, pass);
    turn.give::<OneMore>(
        pass,
        Counter {
            count: count.wrapping_add(1),
        },
    );
}

fn many<R: Wait>(rt: &R, turn: &Turn<Counter>, mut pass: Pass<Counter>) -> Pass<Counter>
    requires own { pass.table ≡ turn.now.table.shared.table_id }
    requires idle { pass.view.stage ≡ Idle }
    ensures { (result.table ≡ pass.table) × (result.view.stage ≡ Idle) × (result.view.kind ≡ pass.view.kind) × (result.view.out ≡ pass.view.out) }
{
    for _ in 0..EACH {
        up(rt, turn, &mut pass);
    }
    pass
}

fn two<R: Threads + Wait + Sync>(
    rt: &R,
    turn: &Turn<Counter>,
    one: Pass<Counter>,
    other: Pass<Counter>,
) -> (Pass<Counter>, Pass<Counter>)
    requires own { (one.table ≡ turn.now.table.shared.table_id) × (other.table ≡ turn.now.table.shared.table_id) }
    requires idle { (one.view.stage ≡ Idle) × (other.view.stage ≡ Idle) }
    ensures first { (result.0.table ≡ one.table) × (result.0.view.stage ≡ Idle) × (result.0.view.kind ≡ one.view.kind) × (result.0.view.out ≡ one.view.out) }
    ensures second { (result.1.table ≡ other.table) × (result.1.view.stage ≡ Idle) × (result.1.view.kind ≡ other.view.kind) × (result.1.view.out ≡ other.view.out) }
{
    thread::join(
        rt,
        move || -> Pass<Counter>
            requires { (one.table ≡ turn.now.table.shared.table_id) × (one.view.stage ≡ Idle) }
            ensures { (result.table ≡ one.table) × (result.view.stage ≡ Idle) × (result.view.kind ≡ one.view.kind) × (result.view.out ≡ one.view.out) }
        { many(rt, turn, one) },
        move || -> Pass<Counter>
            requires { (other.table ≡ turn.now.table.shared.table_id) × (other.view.stage ≡ Idle) }
            ensures { (result.table ≡ other.table) × (result.view.stage ≡ Idle) × (result.view.kind ≡ other.view.kind) × (result.view.out ≡ other.view.out) }
        { many(rt, turn, other) },
    )
}

// Four threads, each with a pass.
fn four<R: Threads + Wait + Sync>(rt: &R, turn: Turn<Counter>, mut opening: Pass<Counter>) -> u64
    requires own { opening.table ≡ turn.table.shared.table_id }
    requires start { (opening.view.kind ≡ Opening) × (opening.view.stage ≡ Idle) × (opening.view.out ≡ 0) }
{
    let a = opening.split(&turn);
    let b = opening.split(&turn);
    let c = opening.split(&turn);
    let shared = &turn;
    let ((mut opening, a), (b, c)) = thread::join(
        rt,
        move || -> (Pass<Counter>, Pass<Counter>)
            requires { (opening.table ≡ shared.now.table.shared.table_id) × (a.table ≡ shared.now.table.shared.table_id) × (opening.view.stage ≡ Idle) × (a.view.stage ≡ Idle) }
            ensures first { (result.0.table ≡ opening.table) × (result.0.view.stage ≡ Idle) × (result.0.view.kind ≡ opening.view.kind) × (result.0.view.out ≡ opening.view.out) }
            ensures second { (result.1.table ≡ a.table) × (result.1.view.stage ≡ Idle) × (result.1.view.kind ≡ a.view.kind) × (result.1.view.out ≡ a.view.out) }
        { two(rt, shared, opening, a) },
        move || -> (Pass<Counter>, Pass<Counter>)
            requires { (b.table ≡ shared.now.table.shared.table_id) × (c.table ≡ shared.now.table.shared.table_id) × (b.view.stage ≡ Idle) × (c.view.stage ≡ Idle) }
            ensures first { (result.0.table ≡ b.table) × (result.0.view.stage ≡ Idle) × (result.0.view.kind ≡ b.view.kind) × (result.0.view.out ≡ b.view.out) }
            ensures second { (result.1.table ≡ c.table) × (result.1.view.stage ≡ Idle) × (result.1.view.kind ≡ c.view.kind) × (result.1.view.out ≡ c.view.out) }
        { two(rt, shared, b, c) },
    );
    opening.join(&turn, a);
    opening.join(&turn, b);
    opening.join(&turn, c);
    turn.close(opening).count
}

#[test]
fn four_threads_count_together(rt: HostRuntime) -> Result<(), Fail> {
    let (turn, opening) = Turn::new(Counter { count: 0 }, rt.alloc())?;
    assert_eq!(rt; four(&rt, turn, opening), 40_000);
    Ok(())
}

#[test]
fn one_thread_by_two_passes(rt: HostRuntime) -> Result<(), Fail> {
    let (turn, mut opening) = Turn::new(Counter { count: 7 }, rt.alloc())?;
    let mut other = opening.split(&turn);
    assert_eq!(rt; turn.front(&mut opening), 0);
    up(&rt, &turn, &mut other);
    up(&rt, &turn, &mut other);
    assert_eq!(rt; turn.front(&mut opening), 2);
    up(&rt, &turn, &mut opening);
    other.meet(&turn, &mut opening);
    assert_eq!(rt; turn.front(&mut other), 3);
    opening.join(&turn, other);
    assert_eq!(rt; turn.close(opening).count, 10);
    Ok(())
}
