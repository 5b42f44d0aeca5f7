// Addresses, and which of them are legal. Depends on octets.
#![tactic(auto)]

ghost use Rattle.std.specs.Prelude.{◌≡◌, ◌==◌};
ghost use Rattle.std.proofs.Common.{rules};
ghost use Rattle.std.specs.Ordering.{on, eq_of_both};
ghost use Rattle.std.specs.Cmp.Rules.{comparing};
ghost use Rattle.address.specs.Rules.{address_at, same_address, legal};

// An address's 16 bytes, as two big-endian numbers of eight bytes.
#[derive(Clone, Copy)]
pub struct Address {
    pub high: u64,
    pub low: u64,
}

// The least high half of an address whose first byte is 0xff.
const IPV6_MULTICAST: u64 = 0xff00_0000_0000_0000;

// The low halves of ::ffff:0.0.0.0, ::ffff:224.0.0.0, ::ffff:240.0.0.0 and ::ffff:255.255.255.255.
const IPV4_UNSPECIFIED: u64 = 0xffff_0000_0000;

const IPV4_MULTICAST: u64 = 0xffff_e000_0000;

const IPV4_RESERVED: u64 = 0xffff_f000_0000;

const IPV4_BROADCAST: u64 = 0xffff_ffff_ffff;

// The address in the 16 bytes at `at`. A half that s does not hold whole is 0.
pub fn address_at(s: &[u8], at: usize) -> Address
    ensures { result ≡ address_at s.now at }
{
    if s.len() <= at {
        return Address { high: 0, low: 0 };
    }
    Address {
        high: octets::u64_at(s, at),
        low: octets::u64_at(s, at + 8),
    }
}

// Two addresses are the same 16 bytes.
pub fn same(a: Address, b: Address) -> bool
    ensures { result ≡ same_address a b }
{
    a.high == b.high && a.low == b.low
}

// `a == b` asks `same`, and so do the crates above.
impl PartialEq for Address {
    ghost use Rattle.address.specs.declared.Address.{Address};

    ghost eq = { eq_of_both (on (λ (a : Address). a.high) ◌==◌) (on (λ (a : Address). a.low) ◌==◌) };

    ghost laws = { Prim.search (comparing, rules) };

    fn eq(&self, other: &Address) -> bool {
        same(*self, *other)
    }
}

impl Eq for Address {
    ghost laws = { Prim.search (comparing, rules) };
}

// An address that may be announced. A high half other than 0 decides alone; among the others an IPv4 address before 224.0.0.0 is found first.
// It is no `match` on both halves: that was tried, and took an instruction more for an IPv6 address and three more for an IPv4 one.
#[tactic(auto, unfolding(crate::specs::Rules::legal))]
pub fn is_legal(a: Address) -> bool
    ensures { result ≡ legal a }
{
    if a.high != 0 {
        a.high < IPV6_MULTICAST
    } else if a.low < IPV4_MULTICAST {
        a.low != 0 && a.low != IPV4_UNSPECIFIED
    } else {
        IPV4_RESERVED <= a.low && a.low != IPV4_BROADCAST
    }
}
