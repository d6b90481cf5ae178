#![tactic(auto)]

ghost use Rattle.std.specs.Prelude.{◌≡◌};
ghost use Rattle.page_key.specs.Fnv.{after_byte, key_of, PublishedKeys};

// The value that a key starts from, and the prime that each byte multiplies by.
const START: u64 = 14_695_981_039_346_656_037;

const PRIME: u64 = 1_099_511_628_211;

// The key of a list of bytes: its 64-bit FNV-1a hash.
pub fn page_key(bytes: &[u8]) -> u64
    ensures { result ≡ key_of bytes.now }
{
    bytes.iter().fold(START, after_byte)
}

fn after_byte(key: u64, byte: &u8) -> u64
    ensures { result ≡ after_byte key byte.now }
{
    (key ^ u64::from(*byte)).wrapping_mul(PRIME)
}

// The keys that FNV's authors publish. It does nothing; its contract is the table.
pub fn published_keys()
    ensures { PublishedKeys }
{}
