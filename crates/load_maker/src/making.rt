//! From a number to a load.

ghost use Rattle.std.specs.Prelude.{◌≡◌, ◌≤◌, IfOk, vec_len};
ghost use Rattle.subkeys.specs.Subkeys.{IsOf};
ghost use Rattle.load_maker.specs.Credentials.{AreCredentials};
ghost use Rattle.load_maker.specs.Load.{IsLoad};
ghost use Rattle.load_maker.specs.Words.{key_of};

use crate::credential::{FIRST_UID, GID, MOMENT, credential};
use crate::words::Words;
use decode_rules::World;
use group_map::GroupMap;
use munge_types::{Identity, NoMemory, Settings};
use std::alloc::Global;
use subkeys::Subkeys;
use wire_msg::Bytes;

/// The moment of the closing purge, in seconds since 1970.
const LAST: u32 = 1_000_200;

/// Credentials of one world, and who is to present them when.
#[derive(Drop)]
pub struct Load {
    /// The world in which the credentials were sealed.
    pub world: World,
    /// Who is to present each credential.
    pub who: Identity,
    /// When each credential was sealed and is to be presented, in seconds since 1970.
    pub moment: u32,
    /// The moment of a closing purge, in seconds since 1970. Of the credentials, those at odd
    /// places have expired then.
    pub last: u32,
    /// The texts of the credentials.
    pub texts: Vec<Bytes>,
}

/// The load of n credentials that the number stands for, n from 1 to 50,000. It is a function of
/// the two: key, salts, initial vectors and payloads are words of the ChaCha20 stream of the number.
pub fn make(alloc: Global, n: u32, number: u64) -> Result<Load, NoMemory>
    requires some { 1 ≤ n }
    requires most { n ≤ 50000 }
    ensures { IfOk result (IsLoad n number) }
{
    let mut words = Words::of(number);
    let Ok(subkeys) = Subkeys::of(&words.key()) else {
        unreachable!()
    };
    let world = World {
        subkeys,
        settings: Settings::usual(),
        groups: GroupMap::none(),
    };
    let texts = credentials(alloc, &world, words, n)?;
    Ok(Load {
        world,
        who: Identity {
            uid: FIRST_UID,
            gid: GID,
            control: false,
        },
        moment: MOMENT,
        last: LAST,
        texts,
    })
}

/// The texts of the first n credentials, sealed in this world with the words behind the key. The
/// list is reserved once.
fn credentials(alloc: Global, world: &World, words: Words, n: u32) -> Result<Vec<Bytes>, NoMemory>
    requires behind_the_key { words.place ≡ 8 }
    requires keyed { IsOf world.now.subkeys (key_of words.seed) }
    ensures count { IfOk result (λ texts. vec_len texts ≡ n) }
    ensures texts { IfOk result (λ texts.
        AreCredentials words.seed world.now.settings texts.items) }
{
    let mut words = words;
    let mut texts = Vec::with_capacity(alloc, n as usize)?;
    'credentials: for i in 0..n {
        let text = credential(alloc, world, i, &words.draw())?;
        texts.push_reserved(text);
    }
    Ok(texts)
}
