// Sets of 64 bits: one bit, the lowest bits, the reading of a bit, the highest and the lowest bit, and the operators by name.
#![tactic(auto)]

ghost use Rattle.std.specs.Prelude.{◌≡◌, ◌<◌, ◌≤◌};
ghost use Rattle.bits.specs.Bits.{set_bits, bit, Single, Low, Top, Lowest, union, difference, transfer};

pub fn single_bit(o: u32) -> u64
    requires { o < set_bits }
    ensures { Single o result }
{
    1 << o
}

pub fn low_bits(k: u32) -> u64
    requires { k ≤ set_bits }
    ensures { Low k result }
{
    if k == u64::BITS {
        u64::MAX
    } else {
        (1 << k) - 1
    }
}

pub fn bit_of(m: u64, o: u32) -> u64
    requires { o < set_bits }
    ensures { result ≡ bit m o }
{
    (m >> o) & 1
}

pub fn top_of(m: u64) -> u32
    ensures { Top m result }
{
    u64::BITS - m.leading_zeros()
}

pub fn lowest_of(m: u64, k: u32) -> u32
    requires { k ≤ set_bits }
    ensures { Lowest m k result }
{
    m.trailing_zeros().min(k)
}

// Each operator is a function, so that proofs above cite its contract and not the bits of | and &.
pub fn union_of(a: u64, b: u64) -> u64
    ensures { result ≡ union a b }
{
    a | b
}

pub fn difference_of(a: u64, b: u64) -> u64
    ensures { result ≡ difference a b }
{
    a & !b
}

// What leaves a point that has the set m, kills some bits and generates others.
pub fn transfer_of(m: u64, kills: u64, gens: u64) -> u64
    ensures { result ≡ transfer m kills gens }
{
    union_of(difference_of(m, kills), gens)
}
