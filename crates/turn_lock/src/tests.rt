//! Turns at a value that counts the entries of two kinds.
ghost use Rattle.std.specs.Prelude.{◌≡◌, ◌+◌, ◌<◌, ◌^◌, Bool, true, false, List, ◌∷◌, length, count_by, Option, Some, None, if◌then◌else◌};
ghost use Rattle.gate_model.specs.Sequences.{IsLater};
ghost use Rattle.turn_lock.specs.Passes.{view_of, IsOutside, IsInside};
ghost use Rattle.turn_lock.specs.Turns.{lock_in, pass_in, view_in, value_in};
ghost use Rattle.turn_lock.specs.Views.{passed, gained};

use crate::{Adds, Kept, Pass, Turn, TurnLock};
use std::hint::spin_loop;
use std::marker::Brand;
use std::sync::Wait;
use std::sync::atomic::AtomicU64;
use std::sync::atomic::Ordering::SeqCst;
use std::test::Fail;
use std::thread::{Threads, join_mut};

// An entry is `true`, which has mark 1, or `false`, which has none.
#[derive(Drop)]
struct Tally {
    trues: u64,
    falses: u64,
    ghost small: { trues + falses < 2 ^ 62 },
}

impl Kept for Tally {
    type Entry = bool;

    ghost stands = { λ t h. (t.trues ≡ count_by (λ b. b) h) × (t.trues + t.falses ≡ length h) };

    ghost mark = { λ b. if b then Some 1 else None };

    fn count(&self) -> u64 {
        self.trues + self.falses
    }

    ghost use Rattle.std.proofs.Common.{arith};

    ghost few = { λ t h s. Prim.omega arith };
}

impl Tally {
    // Whether there was room for the entry, which is then counted.
    fn add(&mut self, kind: bool) -> bool
        ensures added { result ≡ true → (h : List Bool) → ⟦<Tally as Kept>⟧.stands self.old h → ⟦<Tally as Kept>⟧.stands self.new (kind ∷ h) }
        ensures same { result ≡ false → self.new ≡ self.old }
    {
        if self.trues + self.falses + 1 >= 1 << 62 {
            return false;
        }
        if kind {
            self.trues += 1;
        } else {
            self.falses += 1;
        }
        true
    }
}

// Ends a turn in which an entry of that kind was added, if any was.
fn end_turn<N: Adds<bool>>(turn: Turn<'_, Tally>, kind: bool, added: bool)
    requires inside { IsInside (lock_in turn) (pass_in turn).now }
    requires named { N.adds kind }
    requires mark { kind ≡ true → (view_in turn).mark ≡ Some 1 }
    requires added { added ≡ true → ⟦<Tally as Kept>⟧.stands (value_in turn) (kind ∷ (view_in turn).seen) }
    requires same { added ≡ false → ⟦<Tally as Kept>⟧.stands (value_in turn) (view_in turn).seen }
    ensures outside { IsOutside (lock_in turn.entry) turn.exit.1.0.now }
    ensures added { added ≡ true → (e : Bool) × N.adds e × (view_of turn.exit.1.0.now ≡ passed (gained e (view_in turn.entry))) }
    ensures same { added ≡ false → view_of turn.exit.1.0.now ≡ passed (view_in turn.entry) }
{
    turn.pass_on::<N>(added);
}

// A turn that adds an entry of that kind, which is then the last that the pass has seen.
fn take_turn<R: Wait>(rt: &R, lock: &TurnLock<Tally>, pass: &mut Pass<Tally>, kind: bool) -> bool
    requires outside { IsOutside lock.now pass.old }
    requires mark { kind ≡ true → (view_of pass.old).mark ≡ Some 1 }
    ensures outside { IsOutside lock.now pass.new }
    ensures mark { (view_of pass.new).mark ≡ (view_of pass.old).mark }
    ensures given { (view_of pass.new).given ≡ (view_of pass.old).given }
    ensures gained { result ≡ true → (h : List Bool) × IsLater (view_of pass.old).seen h × ((view_of pass.new).seen ≡ kind ∷ h) × ((view_of pass.new).mine ≡ length h ∷ (view_of pass.old).mine) }
{
    let mut turn = lock.turn(rt, pass);
    let added = turn.value().add(kind);
    end_turn::<Brand>(turn, kind, added);
    added
}

fn take_turns<R: Wait>(rt: &R, lock: &TurnLock<Tally>, pass: &mut Pass<Tally>, kind: bool)
    requires outside { IsOutside lock.now pass.old }
    requires mark { kind ≡ true → (view_of pass.old).mark ≡ Some 1 }
    ensures outside { IsOutside lock.now pass.new }
    ensures given { (view_of pass.new).given ≡ (view_of pass.old).given }
{
    for _ in 0..1000 {
        take_turn(rt, lock, pass, kind);
    }
}

// A turn that adds nothing. The pass has then seen all that the other has, whoever added it.
fn catch_up<R: Wait>(
    rt: &R,
    lock: &TurnLock<Tally>,
    pass: &mut Pass<Tally>,
    other: &mut Pass<Tally>,
) -> u64
    requires outside { IsOutside lock.now pass.old × IsOutside lock.now other.old }
    ensures outside { IsOutside lock.now pass.new × IsOutside lock.now other.new }
    ensures all { result ≡ length (view_of pass.new).seen }
    ensures seen { IsLater (view_of other.new).seen (view_of pass.new).seen }
{
    let mut turn = lock.turn(rt, pass);
    let count = turn.meet(other);
    end_turn::<Brand>(turn, false, false);
    count
}

// Waits until the count has this value.
fn wait_for<R: Wait>(rt: &R, count: &AtomicU64, wanted: u64) {
    for _ in rt.forever() {
        if count.load(SeqCst) == wanted {
            return;
        }
        spin_loop();
    }
    unreachable!()
}

// Waits until so many passes sleep.
fn wait_for_sleepers<R: Wait>(rt: &R, lock: &TurnLock<Tally>, wanted: u64) {
    for _ in rt.forever() {
        if lock.beds.sleepers() == wanted {
            return;
        }
        spin_loop();
    }
    unreachable!()
}

// Keeps its turn until two passes sleep. `held` is 1 from when it has the turn on.
fn hold_until_two_sleep<R: Wait>(
    rt: &R,
    lock: &TurnLock<Tally>,
    pass: &mut Pass<Tally>,
    held: &AtomicU64,
)
    requires outside { IsOutside lock.now pass.old }
    ensures outside { IsOutside lock.now pass.new }
{
    let turn = lock.turn(rt, pass);
    held.store(1, SeqCst);
    wait_for_sleepers(rt, lock, 2);
    end_turn::<Brand>(turn, false, false);
}

// Takes a turn that has to wait for another pass's.
fn take_turn_behind<R: Wait>(
    rt: &R,
    lock: &TurnLock<Tally>,
    pass: &mut Pass<Tally>,
    held: &AtomicU64,
)
    requires outside { IsOutside lock.now pass.old }
    ensures outside { IsOutside lock.now pass.new }
{
    wait_for(rt, held, 1);
    take_turn(rt, lock, pass, false);
}

// Two passes take a turn each, in threads of their own, behind the one that `held` tells of.
fn take_two_behind<R: Threads + Wait + Sync>(
    rt: &R,
    lock: &TurnLock<Tally>,
    one: &mut Pass<Tally>,
    other: &mut Pass<Tally>,
    held: &AtomicU64,
)
    requires one { IsOutside lock.now one.old }
    requires other { IsOutside lock.now other.old }
    ensures one { IsOutside lock.now one.new }
    ensures other { IsOutside lock.now other.new }
{
    join_mut(
        rt,
        &mut || take_turn_behind(rt, lock, one, held),
        &mut || take_turn_behind(rt, lock, other, held),
    );
}

// One pass keeps its turn until the two others sleep. When it hands on, both go on.
fn wake_two<R: Threads + Wait + Sync>(
    rt: &R,
    lock: &TurnLock<Tally>,
    holder: &mut Pass<Tally>,
    one: &mut Pass<Tally>,
    other: &mut Pass<Tally>,
)
    requires holder { IsOutside lock.now holder.old }
    requires one { IsOutside lock.now one.old }
    requires other { IsOutside lock.now other.old }
    ensures holder { IsOutside lock.now holder.new }
    ensures one { IsOutside lock.now one.new }
    ensures other { IsOutside lock.now other.new }
{
    let held = AtomicU64::new(0);
    let sign = &held;
    join_mut(
        rt,
        &mut || hold_until_two_sleep(rt, lock, holder, sign),
        &mut ||
            requires one { IsOutside lock.now one.now }
            requires other { IsOutside lock.now other.now }
        { take_two_behind(rt, lock, one, other, sign) },
    );
}

// The same a hundred times.
fn wake_often<R: Threads + Wait + Sync>(
    rt: &R,
    lock: &TurnLock<Tally>,
    holder: &mut Pass<Tally>,
    one: &mut Pass<Tally>,
    other: &mut Pass<Tally>,
)
    requires holder { IsOutside lock.now holder.old }
    requires one { IsOutside lock.now one.old }
    requires other { IsOutside lock.now other.old }
    ensures holder { IsOutside lock.now holder.new }
    ensures one { IsOutside lock.now one.new }
    ensures other { IsOutside lock.now other.new }
{
    for _ in 0..100 {
        wake_two(rt, lock, holder, one, other);
    }
}

// No wake is lost: a hundred times two passes sleep, and both get their turn.
#[test]
fn sleepers_are_woken(rt: HostRuntime) -> Result<(), Fail> {
    let tally = Tally {
        trues: 0,
        falses: 0,
    };
    let (lock, mut holder) = TurnLock::new::<Brand>(rt.alloc(), tally)?;
    let mut one = lock.split(&mut holder, None);
    let mut other = lock.split(&mut holder, None);
    wake_often(&rt, &lock, &mut holder, &mut one, &mut other);
    assert_eq!(rt; lock.newest(&mut holder), 200);
    Ok(())
}

// Two threads take 1,000 turns each, at the same time. The value counts every turn, in whatever order they came.
#[test]
fn two_threads_take_a_thousand_turns_each(rt: HostRuntime) -> Result<(), Fail> {
    let tally = Tally {
        trues: 0,
        falses: 0,
    };
    let (lock, mut first) = TurnLock::new::<Brand>(rt.alloc(), tally)?;
    let mut one = lock.split(&mut first, Some(1));
    let mut two = lock.split(&mut first, None);
    let (shared, handle) = (&lock, &rt);
    join_mut(
        &rt,
        &mut || take_turns(handle, shared, &mut one, true),
        &mut || take_turns(handle, shared, &mut two, false),
    );
    lock.join(&mut first, one);
    lock.join(&mut first, two);
    assert_eq!(rt; lock.newest(&mut first), 2000);
    let tally = lock.finish(&rt, first);
    assert_eq!(rt; (tally.trues, tally.falses), (1000, 1000));
    Ok(())
}

// While one pass has its turn, another learns the number of entries, in the same thread. The turn
// counts as many.
#[test]
fn newest_answers_while_a_turn_is_held(rt: HostRuntime) -> Result<(), Fail> {
    let tally = Tally {
        trues: 0,
        falses: 0,
    };
    let (lock, mut first) = TurnLock::new::<Brand>(rt.alloc(), tally)?;
    let mut other = lock.split(&mut first, None);
    take_turn(&rt, &lock, &mut first, false);
    let mut turn = lock.turn(&rt, &mut first);
    assert_eq!(rt; lock.newest(&mut other), 1);
    assert_eq!(rt; turn.meet(&mut other), 1);
    turn.pass_on::<Brand>(false);
    take_turn(&rt, &lock, &mut other, false);
    assert_eq!(rt; lock.newest(&mut first), 2);
    Ok(())
}

// A pass that has a turn after another has seen what that one left.
#[test]
fn a_turn_catches_up_with_another_pass(rt: HostRuntime) -> Result<(), Fail> {
    let tally = Tally {
        trues: 0,
        falses: 0,
    };
    let (lock, mut first) = TurnLock::new::<Brand>(rt.alloc(), tally)?;
    let mut other = lock.split(&mut first, None);
    take_turn(&rt, &lock, &mut other, false);
    take_turn(&rt, &lock, &mut other, false);
    assert_eq!(rt; catch_up(&rt, &lock, &mut first, &mut other), 2);
    assert_eq!(rt; catch_up(&rt, &lock, &mut other, &mut first), 2);
    Ok(())
}

// A lock begins with the entries that its value stands for, and ends with what all turns left.
#[test]
fn finish_hands_out_what_all_turns_left(rt: HostRuntime) -> Result<(), Fail> {
    let tally = Tally {
        trues: 0,
        falses: 3,
    };
    let (lock, mut first) = TurnLock::new::<Brand>(rt.alloc(), tally)?;
    let mut marked = lock.split(&mut first, Some(1));
    assert_eq!(rt; lock.newest(&mut marked), 3);
    take_turn(&rt, &lock, &mut marked, true);
    take_turn(&rt, &lock, &mut first, false);
    take_turn(&rt, &lock, &mut marked, true);
    lock.join(&mut first, marked);
    let tally = lock.finish(&rt, first);
    assert_eq!(rt; (tally.trues, tally.falses), (2, 4));
    Ok(())
}
