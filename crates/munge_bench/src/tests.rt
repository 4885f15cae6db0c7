//! How measurements are shown, how the system's are read, and what the parts of a credential are.

use crate::cost::Cost;
use crate::pace::Pace;
use crate::parts::Parts;
use crate::replay::resident;
use crate::sample::Sample;
use munge_types::{Cipher, MacKind};
use std::test::Fail;
use std::time::Duration;

#[test]
fn a_pace_is_shown_both_ways(rt: HostRuntime) -> Result<(), Fail> {
    for (pairs, micros, shown) in [
        (3, 1, "3000000 pairs/s 333.3 ns"),
        (40_000_000, 1_000_000, "40000000 pairs/s 25.0 ns"),
        (0, 5, "0 pairs/s 5000.0 ns"),
    ] {
        let pace = Pace::new(pairs, Duration::from_micros(micros));
        assert_eq!(rt; format!(in rt.alloc(); "{pace}")?.as_str(), shown);
    }
    Ok(())
}

#[test]
fn the_resident_set_is_read(rt: HostRuntime) {
    let status = "Name:\tmunge_bench\nVmHWM:\t  20480 kB\nVmRSS:\t  10240 kB\nRssAnon:\t 9 kB\n";
    assert_eq!(rt; resident(status), Some(10240));
    assert_eq!(rt; resident("VmHWM:\t  20480 kB\n"), None);
}

#[test]
fn parts_are_shown_together(rt: HostRuntime) -> Result<(), Fail> {
    let parts = Parts {
        hash: Cost::each(3, Duration::from_micros(1)),
        cipher: Cost::each(10, Duration::from_micros(4)),
        base64: Cost::each(1, Duration::from_micros(2)),
    };
    let shown = format!(in rt.alloc(); "{parts}")?;
    assert_eq!(rt;
        shown.as_str(),
        "2733.3 ns hash 333.3 cipher 400.0 base64 2000.0"
    );
    assert_eq!(rt; parts.sum().rate(65_536), 239_768);
    Ok(())
}

fn sample(cipher: Cipher, kind: MacKind, payload: u32) -> Sample {
    Sample {
        cipher,
        kind,
        payload,
        calls: 1,
    }
}

/// What is hashed, encrypted and spelled, by the layout of a credential: 5 bytes of outer part and 16
/// of vector, the MAC, and 41 bytes before the payload, in blocks of 16 where there is a cipher.
#[test]
fn parts_go_over_the_bytes_of_a_credential(rt: HostRuntime) -> Result<(), Fail> {
    let plain = sample(Cipher::None, MacKind::Sha1, 5);
    let small = sample(Cipher::Aes128, MacKind::Sha256, 5);
    let whole = sample(Cipher::Aes256, MacKind::Sha512, 7);
    let large = sample(Cipher::Aes128, MacKind::Sha512, 1_048_576);
    for (sample, shown, sizes) in [
        (plain, "none sha-1 5", [51, 46, 71]),
        (small, "aes-128 sha-256 5", [67, 48, 101]),
        (whole, "aes-256 sha-512 7", [69, 64, 149]),
        (
            large,
            "aes-128 sha-512 1048576",
            [1_048_638, 1_048_624, 1_048_709],
        ),
    ] {
        assert_eq!(rt; format!(in rt.alloc(); "{sample}")?.as_str(), shown);
        let [hashed, sealed, body] = sizes;
        assert_eq!(rt; sample.hashed_size(), hashed, "{shown}");
        assert_eq!(rt; sample.sealed_size(), sealed, "{shown}");
        assert_eq!(rt; sample.body_size(), body, "{shown}");
    }
    Ok(())
}
