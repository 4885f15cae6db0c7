//! What unmunge prints.

use crate::printed;
use std::test::Fail;
use wire_msg::{Bytes, Content, DecodeSaid};

#[test]
fn restrictions_and_a_payload_without_end_of_line(rt: HostRuntime) -> Result<(), Fail> {
    let alloc = rt.alloc();
    let said = DecodeSaid {
        status: 17,
        rule: 14,
        place: 18446744073709551614,
        content: Some(Content {
            cipher: 0,
            kind: 6,
            addr: [10, 0, 255, 1],
            time: 4294967295,
            ttl: 3600,
            uid: 0,
            gid: 4294967294,
            for_uid: 0,
            for_gid: 4294967294,
            payload: Bytes::of(Vec::from_slice(alloc, b"\x00\n\xff")?),
        }),
    };
    let Ok(text) = printed(alloc, &said) else {
        return Err(Fail::from("no memory"));
    };
    assert_eq!(rt;
        text.as_slice(),
        b"STATUS: 17\nRULE: 14\nPLACE: 18446744073709551614\nCIPHER: 0\nMAC: 6\nADDRESS: 10.0.255.1\nTIME: 4294967295\nTTL: 3600\nUID: 0\nGID: 4294967294\nUID_RESTRICTION: 0\nGID_RESTRICTION: 4294967294\nLENGTH: 3\n\n\x00\n\xff".as_slice()
    );
    Ok(())
}
