//! Worked values, and a caller that stands on the contracts alone.

ghost use Rattle.std.specs.Prelude.{◌≡◌, ◌≢◌, IfOk};
ghost use Rattle.munge_types.specs.declared.history.Verdict.TheVariants.{Accepted};
ghost use Rattle.replay_gate.specs.Answers.{Answers};

use crate::{Admitted, Entry, Gate, GateRefused, Pass, Worn};
use munge_types::{MacBytes, Pair, Replay, Verdict};
use replay_table::PlainReplay;
use std::sync::Wait;
use std::test::Fail;
use std::thread;
use std::thread::Threads;

fn pair(expiry: u64, number: u8) -> Pair {
    Pair {
        expiry,
        mac: MacBytes::of(&[number; 20]),
    }
}

/// Looks the pair up once, and answers whether it was accepted.
fn admit_once<R: Replay + Drop, W: Wait>(
    rt: &W,
    gate: &Gate<R>,
    mut pass: Pass,
    pair: &Pair,
    moment: u32,
) -> Result<(Pass, Admitted), GateRefused>
    requires { pass.gate ≡ gate.now }
    ensures { IfOk result (λ done. Answers pass done.0 pair.now moment done.1) }
{
    let admitted = gate.admit(rt, &mut pass, pair, moment)?;
    Ok((pass, admitted))
}

/// Two threads look one pair up. Not both are told that it is accepted. `the_pass_and_its_part` has
/// passes that this takes.
fn admit_both<R: Replay + Drop, W: Threads + Wait + Sync>(
    rt: &W,
    gate: &Gate<R>,
    first: Pass,
    second: Pass,
    pair: &Pair,
    moment: u32,
) -> Result<(Verdict, Verdict), GateRefused>
    requires gate { (first.gate ≡ gate.now) × (second.gate ≡ gate.now) }
    requires apart { first.number ≢ second.number }
    ensures { IfOk result (λ said. said.0 ≡ Accepted → said.1 ≡ Accepted → ⊥) }
{
    let (one, other) = thread::join(
        rt,
        move || -> Result<(Pass, Admitted), GateRefused>
            requires { first.gate ≡ gate.now }
            ensures { IfOk result (λ done. Answers first done.0 pair.entry.now moment done.1) }
        { admit_once(rt, gate, first, pair, moment) },
        move || -> Result<(Pass, Admitted), GateRefused>
            requires { second.gate ≡ gate.now }
            ensures { IfOk result (λ done. Answers second done.0 pair.entry.now moment done.1) }
        { admit_once(rt, gate, second, pair, moment) },
    );
    let (first, one) = one?;
    let (second, other) = other?;
    let _both = gate.meet(first, second);
    Ok((one.verdict, other.verdict))
}

#[test]
fn the_pass_and_its_part(rt: HostRuntime) -> Result<(), Fail> {
    let Entry { gate, mut pass } = Gate::new(rt.alloc(), PlainReplay::new(rt.alloc()), 2)?;
    let given = gate.split(&mut pass, 1)?;
    let accepted = admit_both(&rt, &gate, pass, given, &pair(300, 1), 0).map(|(one, other)| {
        (one == Verdict::Accepted, other == Verdict::Accepted)
    });
    assert!(rt; accepted == Ok((true, false)) || accepted == Ok((false, true)));
    Ok(())
}

#[test]
fn a_worn_gate_makes_no_entry(rt: HostRuntime) -> Result<(), Fail> {
    let worn = 1 << 62;
    let Entry { gate, mut pass } = Gate::new_at(rt.alloc(), PlainReplay::new(rt.alloc()), 1, worn)?;
    assert_eq!(rt;
        gate.admit(&rt, &mut pass, &pair(300, 1), 0),
        Err(GateRefused::Worn(worn))
    );
    assert_eq!(rt; (pass.number(), pass.spare(), pass.share()), (0, 0, 1));
    assert_eq!(rt; pass.length(), 0);
    let closed = gate.close(pass);
    assert_eq!(rt; (closed.length, closed.state.kept()), (0, 0));
    Ok(())
}

#[test]
fn a_gate_wears_out(rt: HostRuntime) -> Result<(), Fail> {
    let worn = 1 << 62;
    let one = pair(300, 1);
    let Entry { gate, mut pass } = Gate::new_at(
        rt.alloc(),
        PlainReplay::new(rt.alloc()),
        1,
        worn - 1,
    )?;
    let (verdict, place) = (Verdict::Accepted, 0);
    assert_eq!(rt;
        gate.admit(&rt, &mut pass, &one, 0),
        Ok(Admitted { verdict, place })
    );
    assert_eq!(rt;
        gate.admit(&rt, &mut pass, &one, 0),
        Err(GateRefused::Worn(worn))
    );
    assert_eq!(rt; gate.purge(&rt, &mut pass, 9, 9), Err(Worn(worn)));
    let closed = gate.close(pass);
    assert_eq!(rt; (closed.length, closed.state.floor()), (1, 0));
    Ok(())
}

#[test]
fn a_purge_drops_as_its_slice_says(rt: HostRuntime) -> Result<(), Fail> {
    let Entry { gate, mut pass } = Gate::new(rt.alloc(), PlainReplay::new(rt.alloc()), 1)?;
    for (expiry, number) in [(10, 1), (20, 2), (20, 3), (30, 4)] {
        let verdict = gate
            .admit(&rt, &mut pass, &pair(expiry, number), 0)
            .map(|admitted| admitted.verdict);
        assert_eq!(rt; verdict, Ok(Verdict::Accepted));
    }
    for (slice, dropped, left) in [(0, 0, 2), (1, 1, 1), (1, 2, 0)] {
        let purged = gate
            .purge(&rt, &mut pass, 25, slice)
            .map(|purged| (purged.dropped, purged.left));
        assert_eq!(rt; purged, Ok((dropped, left)));
    }
    let verdict = gate
        .admit(&rt, &mut pass, &pair(20, 2), 0)
        .map(|admitted| admitted.verdict);
    assert_eq!(rt; verdict, Ok(Verdict::Expired));
    let closed = gate.close(pass);
    assert_eq!(rt; (closed.length, closed.state.kept()), (8, 1));
    Ok(())
}

fn crosses_threads<T: Send + Sync>(_: &T) {}

fn moves_to_a_thread<T: Send>(_: &T) {}

#[test]
fn three_passes_make_one_history(rt: HostRuntime) -> Result<(), Fail> {
    let Entry { gate, mut pass } = Gate::new(rt.alloc(), PlainReplay::new(rt.alloc()), 3)?;
    assert_eq!(rt; (pass.number(), pass.spare(), pass.share()), (0, 2, 3));
    let mut given = gate.split(&mut pass, 1)?;
    assert_eq!(rt; (given.number(), given.spare(), given.share()), (2, 0, 1));
    assert_eq!(rt; (pass.number(), pass.spare(), pass.share()), (0, 1, 2));
    let one = pair(300, 1);
    let (verdict, place) = (Verdict::Accepted, 0);
    assert_eq!(rt;
        gate.admit(&rt, &mut pass, &one, 0),
        Ok(Admitted { verdict, place })
    );
    let (verdict, place) = (Verdict::Replayed, 1);
    assert_eq!(rt;
        gate.admit(&rt, &mut given, &one, 0),
        Ok(Admitted { verdict, place })
    );
    crosses_threads(&gate);
    moves_to_a_thread(&pass);
    let all = gate.meet(pass, given);
    assert_eq!(rt; (all.number(), all.share()), (0, 3));
    let closed = gate.close(all);
    assert_eq!(rt; (closed.length, closed.state.kept()), (2, 1));
    Ok(())
}

/// Looks 200 pairs up, and counts those that were accepted.
fn admit_all<R: Replay + Drop, W: Wait>(rt: &W, gate: &Gate<R>, mut pass: Pass) -> (Pass, u64)
    requires { pass.gate ≡ gate.now }
    ensures gate { result.0.gate ≡ pass.gate }
    ensures share { result.0.share ≡ pass.share }
{
    let mut accepted = 0;
    for number in 0..200 {
        let verdict = gate
            .admit(rt, &mut pass, &pair(300, number), 0)
            .map(|admitted| admitted.verdict);
        if verdict == Ok(Verdict::Accepted) {
            accepted += 1;
        }
    }
    (pass, accepted)
}

#[test]
fn two_threads_one_gate(rt: HostRuntime) -> Result<(), Fail> {
    let Entry { gate, mut pass } = Gate::new(rt.alloc(), PlainReplay::new(rt.alloc()), 2)?;
    let given = gate.split(&mut pass, 1)?;
    let shared = &gate;
    let ((pass, one), (given, other)) = thread::join(
        &rt,
        move || -> (Pass, u64)
            requires { pass.gate ≡ shared.now }
            ensures { (result.0.gate ≡ pass.gate) × (result.0.share ≡ pass.share) }
        { admit_all(&rt, shared, pass) },
        move || -> (Pass, u64)
            requires { given.gate ≡ shared.now }
            ensures { (result.0.gate ≡ given.gate) × (result.0.share ≡ given.share) }
        { admit_all(&rt, shared, given) },
    );
    let all = gate.meet(pass, given);
    let closed = gate.close(all);
    assert_eq!(rt;
        (closed.length, closed.state.kept(), one.checked_add(other)),
        (400, 200, Some(200))
    );
    Ok(())
}

/// The caller that the crate's documentation shows: one pair, looked up by two passes.
#[test]
fn caller(rt: HostRuntime) -> Result<(), Fail> {
    let Entry { gate, mut pass } = Gate::new(rt.alloc(), PlainReplay::new(rt.alloc()), 2)?;
    let mut other = gate.split(&mut pass, 1)?;
    let mac = MacBytes::of(b"\x01\x02\x03");
    let pair = Pair { expiry: 1300, mac };
    let first = gate.admit(&rt, &mut pass, &pair, 1000)?;
    let second = gate.admit(&rt, &mut other, &pair, 1000)?;
    assert_eq!(rt; (first.verdict, first.place), (Verdict::Accepted, 0));
    assert_eq!(rt; (second.verdict, second.place), (Verdict::Replayed, 1));
    let all = gate.meet(pass, other);
    let closed = gate.close(all);
    assert_eq!(rt; (closed.length, closed.state.kept()), (2, 1));
    Ok(())
}
