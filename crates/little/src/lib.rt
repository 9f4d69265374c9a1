// A number of eight bytes, the lowest first, at a place of a slice. Where the eight bytes do not all lie in the slice,
// 0 is read, and a store changes nothing.
#![tactic(auto)]

ghost use Rattle.std.specs.Prelude.{◌≡◌};
ghost use Rattle.little.specs.Number.{number_at, with_number};

#[tactic(auto, unfolding(crate::specs::Number::number_at))]
pub fn read_u64(s: &[u8], at: usize) -> u64
    ensures { result ≡ number_at s.now at }
{
    if s.len() < 8 || s.len() - 8 < at {
        return 0;
    }
    u64::from_le_bytes(s[at..at + 8].try_into().unwrap())
}

#[tactic(auto, unfolding(crate::specs::Number::with_number))]
pub fn write_u64(s: &mut [u8], at: usize, v: u64)
    ensures { s.new ≡ with_number s.old at v }
{
    if s.len() < 8 || s.len() - 8 < at {
        return;
    }
    s[at..at + 8].copy_from_slice(&v.to_le_bytes());
}
