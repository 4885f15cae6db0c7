//! Reading a passwd file and a group file of many lines, and asking the map who is a member.
//!
//! The passwd file has a user a line, and the group file a group a line, which lists four users from
//! all over the passwd file. Both are read, and then each group is asked about one of the users that
//! it lists, and about one that it does not. Rounds are made until a second of elapsed time was
//! measured. Each line has how many lines either file has, what was timed, and nanoseconds: for each
//! line of the two files that was read, and for each question that was answered as it should be.

use crate::pace::Pace;
use group_map::GroupMap;
use std::alloc::{AllocError, Global};
use std::io;
use std::time::{Clock, Duration, Instant};

/// How many users a group lists.
const LISTED: u32 = 4;

/// How long a measurement goes on, in seconds.
const SECONDS: u64 = 1;

/// The user at this place of a group's list, of so many users. The multiplier is Knuth's for
/// multiplicative hashing.
fn listed_user(group: u32, place: u32, users: u32) -> u32 {
    let number = group.wrapping_mul(LISTED).wrapping_add(place);
    number.wrapping_mul(2_654_435_761) % users.max(1)
}

/// A passwd file of so many users.
fn passwd_file(alloc: Global, users: u32) -> Result<String, AllocError> {
    let mut text = String::new(alloc);
    for user in 0..users {
        writeln!(
            text,
            "user{user}:x:{user}:100:User {user}:/home/user{user}:/bin/sh"
        )?;
    }
    Ok(text)
}

/// A group file of as many groups as there are users.
fn group_file(alloc: Global, users: u32) -> Result<String, AllocError> {
    let mut text = String::new(alloc);
    for group in 0..users {
        write!(text, "group{group}:x:{group}:")?;
        for place in 0..LISTED {
            let user = listed_user(group, place, users);
            write!(text, "user{user},")?;
        }
        writeln!(text)?;
    }
    Ok(text)
}

/// How much was done in what time.
#[derive(Clone, Copy)]
struct Sum {
    done: u64,
    time: Duration,
}

impl Sum {
    const NOTHING: Sum = Sum {
        done: 0,
        time: Duration::ZERO,
    };

    fn add(&mut self, done: u64, time: Duration) {
        self.done = self.done.saturating_add(done);
        self.time = self.time.saturating_add(time);
    }
}

/// How many groups have as a member the user at this place of their list.
fn count_members(map: &GroupMap, users: u32, place: u32) -> u64 {
    let mut members = 0u64;
    for group in 0..users {
        if map.member(listed_user(group, place, users), group) {
            members = members.saturating_add(1);
        }
    }
    members
}

fn print_pace(rt: &impl Print, users: u32, what: &str, sum: Sum) -> io::Result<()> {
    let tenths = Pace::new(sum.done, sum.time).tenths();
    let whole = tenths / 10;
    let tenth = tenths % 10;
    println!(rt; "{users} {what} {whole}.{tenth} ns")
}

/// Times files of so many lines each.
fn time<R: Clock + Print>(rt: &R, alloc: Global, users: u32) -> io::Result<()> {
    let passwd = passwd_file(alloc, users)?;
    let group = group_file(alloc, users)?;
    let mut read = Sum::NOTHING;
    let mut members = Sum::NOTHING;
    let mut strangers = Sum::NOTHING;
    for _ in 0..u64::MAX {
        let start = Instant::now(rt)?;
        let Ok(map) = GroupMap::read(alloc, passwd.as_bytes(), group.as_bytes()) else {
            return Err(io::ErrorKind::InvalidData.into());
        };
        read.add(u64::from(users) * 2, start.elapsed(rt)?);

        let start = Instant::now(rt)?;
        let found = count_members(&map, users, 0);
        members.add(found, start.elapsed(rt)?);

        // The place behind a list is the first of the next one.
        let start = Instant::now(rt)?;
        let found = count_members(&map, users, LISTED);
        strangers.add(u64::from(users).saturating_sub(found), start.elapsed(rt)?);
        if read.time.as_secs() >= SECONDS {
            break;
        }
    }
    print_pace(rt, users, "read", read)?;
    print_pace(rt, users, "member", members)?;
    print_pace(rt, users, "stranger", strangers)
}

/// Times files of ten thousand lines and of a hundred thousand.
pub fn run<R: Clock + Print>(rt: &R, alloc: Global) -> io::Result<()> {
    for users in [10_000, 100_000] {
        time(rt, alloc, users)?;
    }
    Ok(())
}
