//! The words of the command line, the key file and the seed file.

use super::fixture::Run;
use std::test::Fail;

#[test]
fn words_of_the_command_line(rt: HostRuntime) -> Result<(), Fail> {
    let table = [
        ("", 1, ""),
        ("session", 1, ""),
        ("session\nkey\n7", 1, ""),
        ("session\nkey\n7\n7\nseed\nmore", 1, ""),
        ("session\nkey\n7\n7\nseed", 2, "cannot read seed"),
        ("session\nkey\n7\n4294967295\nseed", 1, ""),
        ("sessions\nkey\n7\n7\nseed", 1, ""),
        ("sessions\nkey\n7\n7", 1, ""),
        ("Session\nkey\n7\n7", 1, ""),
        ("\nkey\n7\n7", 1, ""),
        ("check\nkey\n7\n7", 1, ""),
        ("check", 1, ""),
        ("check\nkey\nmore", 1, ""),
        ("check\nother", 2, "cannot read other"),
        ("checks\nkey", 1, ""),
        ("session\nkey\n7\n4294967295", 1, ""),
        ("session\nkey\n4294967295\n7", 1, ""),
        ("session\nkey\n000000000000000000007\n7", 1, ""),
        ("session\nkey\n7\n99999999999999999999", 1, ""),
        ("session\nkey\n-1\n7", 1, ""),
        ("session\nkey\n7\n+7", 1, ""),
        ("session\nkey\n\n7", 1, ""),
        ("session\nkey\n7\n7 ", 1, ""),
        ("session\nkey\n0\n4294967294", 0, ""),
        ("session\nkey\n00000000004294967294\n007", 0, ""),
        ("session\nother\n7\n7", 2, "cannot read other"),
    ];
    for (words, status, said) in table {
        let mut run = Run::new(rt.alloc())?;
        run.words = String::from_str(rt.alloc(), words)?;
        run.said = String::from_str(rt.alloc(), said)?;
        run.assert_ends(&rt, status, words)?;
    }
    Ok(())
}

#[test]
fn key_files(rt: HostRuntime) -> Result<(), Fail> {
    for (size, fails, status, said) in [
        (0, 0, 3, "key has 0 bytes"),
        (31, 0, 3, "key has 31 bytes"),
        (32, 0, 0, ""),
        (1024, 0, 0, ""),
        (1025, 0, 3, "key has 1025 bytes"),
        (1030, 0, 3, "key has 1025 bytes"),
        (32, 1, 2, "cannot read key"),
        (31, 1, 2, "cannot read key"),
    ] {
        let mut run = Run::new(rt.alloc())?;
        run.key = vec![in rt.alloc(); 0xab; size]?;
        run.failing_file = fails;
        run.said = String::from_str(rt.alloc(), said)?;
        run.assert_ends(&rt, status, "a key file")?;
    }
    Ok(())
}

#[test]
fn seed_files(rt: HostRuntime) -> Result<(), Fail> {
    // The bytes of the key file and of the seed file, the read of a file that fails, the status, and
    // what is said.
    for (key, seed, fails, status, said) in [
        (32, 0, 0, 3, "seed has 0 bytes"),
        (32, 31, 0, 3, "seed has 31 bytes"),
        (32, 32, 0, 0, ""),
        (32, 33, 0, 0, ""),
        (32, 32, 2, 2, "cannot read seed"),
        (32, 31, 2, 2, "cannot read seed"),
        (32, 31, 1, 2, "cannot read key"),
        (31, 32, 2, 3, "key has 31 bytes"),
    ] {
        let mut run = Run::new(rt.alloc())?;
        run.key = vec![in rt.alloc(); 0xab; key]?;
        let seed = vec![in rt.alloc(); 0; seed]?;
        run.seed_with(&seed)?;
        run.failing_file = fails;
        run.said = String::from_str(rt.alloc(), said)?;
        run.assert_ends(&rt, status, "a seed file")?;
    }
    Ok(())
}
