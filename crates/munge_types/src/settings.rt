//! The times that sealing and opening go by.

ghost use Rattle.std.specs.Prelude.{◌≡◌, ◌<◌, ◌≤◌, ◌↔◌, IfSome, IsSome, [], ◌∷◌};

/// The settings of a daemon, in seconds, and the address that it writes into credentials.
#[derive(Clone, Copy, Debug, PartialEq, Eq)]
pub struct Settings {
    /// The time to live of a credential that asks for none, from 1 to `max_ttl`.
    pub default_ttl: u32,
    /// The longest time to live, from 1 to 3600.
    pub max_ttl: u32,
    /// How far a credential's time may lie ahead of the clock, from 0 to 300.
    pub skew: u32,
    /// The IPv4 address of the host that seals.
    pub addr: [u8; 4],
    ghost some_default: { 1 ≤ default_ttl },
    ghost default_within: { default_ttl ≤ max_ttl },
    ghost max_within: { max_ttl ≤ 3600 },
    ghost skew_within: { skew ≤ 300 },
}

impl Settings {
    /// 300, 3600 and 300 seconds, and the address 0.0.0.0.
    pub fn usual() -> Settings
        ensures default_ttl { result.default_ttl ≡ 300 }
        ensures max_ttl { result.max_ttl ≡ 3600 }
        ensures skew { result.skew ≡ 300 }
        ensures addr { result.addr ≡ 0 ∷ 0 ∷ 0 ∷ 0 ∷ [] }
    {
        Settings {
            default_ttl: 300,
            max_ttl: 3600,
            skew: 300,
            addr: [0; 4],
        }
    }

    /// The settings of these values, and None exactly where one is out of its range or the default
    /// is above the maximum.
    pub fn of(default_ttl: u32, max_ttl: u32, skew: u32, addr: [u8; 4]) -> Option<Settings>
        ensures default_ttl { IfSome result (λ settings. settings.default_ttl ≡ default_ttl) }
        ensures max_ttl { IfSome result (λ settings. settings.max_ttl ≡ max_ttl) }
        ensures skew { IfSome result (λ settings. settings.skew ≡ skew) }
        ensures addr { IfSome result (λ settings. settings.addr ≡ addr) }
        ensures some { IsSome result
            ↔ ((1 ≤ default_ttl) × (default_ttl ≤ max_ttl) × (max_ttl ≤ 3600) × (skew ≤ 300)) }
    {
        if default_ttl < 1 || default_ttl > max_ttl || max_ttl > 3600 || skew > 300 {
            return None;
        }
        Some(Settings {
            default_ttl,
            max_ttl,
            skew,
            addr,
        })
    }
}
