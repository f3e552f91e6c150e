// FNV-1a at 64 bits, kept as two halves of 32 from byte to byte, of shifts, which drop the high bits, and of sums that wrap: small machines need no wide multiply for it, and on others the products of the halves run side by side.
#![tactic(auto)]

ghost use Rattle.std.specs.Prelude.{◌≡◌, ◌*◌, ◌/◌, ◌%◌, ◌^◌};
ghost use Rattle.rules.specs.Digest.{prime};
ghost use Rattle.digest.specs.Halves.{whole_of};
ghost use Rattle.digest.specs.Statements.{DigestsOn, Digests};

// A number of 64 bits by halves: of shifts and sums of whole ones the compiler makes the one product by the prime again.
#[derive(Clone, Copy)]
struct Halves {
    low: u32,
    high: u32,
}

// The digest of no bytes.
pub const BASIS: u64 = 0xcbf29ce484222325;

// The product of 32 bits by 435 modulo 2^32. 435 is 2^8 + 2^7 + 2^5 + 2^4 + 2 + 1.
fn half_times_435(x: u32) -> u32
    ensures { result ≡ x * 435 % 2 ^ 32 }
{
    let mut r = std::num::wrapping_add_u32(x << 8, x << 7);
    r = std::num::wrapping_add_u32(r, x << 5);
    r = std::num::wrapping_add_u32(r, x << 4);
    r = std::num::wrapping_add_u32(r, x << 1);
    std::num::wrapping_add_u32(r, x)
}

// What the product of 32 bits by 435 carries past them, by products of 16 bits, which fit in 32.
fn carried_by_435(x: u32) -> u32
    ensures { result ≡ x * 435 / 2 ^ 32 }
{
    (half_times_435(x >> 16) + (half_times_435(x % 65536) >> 16)) >> 16
}

// The product by 435.
fn times_435(h: Halves) -> Halves
    ensures { whole_of result ≡ whole_of h * 435 % 2 ^ 64 }
{
    Halves {
        low: half_times_435(h.low),
        high: std::num::wrapping_add_u32(half_times_435(h.high), carried_by_435(h.low)),
    }
}

// The upper half of h << 40, which only the lower half of h reaches. Its lower half is 0.
fn shifted_by_40(h: Halves) -> u32
    ensures { result * 2 ^ 32 ≡ whole_of h * 2 ^ 40 % 2 ^ 64 }
{
    h.low << 8
}

// The product by the prime, which is 2^40 + 435.
fn times_prime(h: Halves) -> Halves
    ensures { whole_of result ≡ whole_of h * prime % 2 ^ 64 }
{
    let product = times_435(h);
    Halves {
        low: product.low,
        high: std::num::wrapping_add_u32(product.high, shifted_by_40(h)),
    }
}

// The digest h run on over more bytes.
pub fn digest_on(h: u64, bytes: &[u8]) -> u64
    ensures { DigestsOn h bytes.now result }
{
    let mut sum = Halves {
        low: (h % 4294967296) as u32,
        high: (h >> 32) as u32,
    };
    for byte in bytes {
        sum.low = *byte as u32 ^ sum.low;
        sum = times_prime(sum);
    }
    ((sum.high as u64) << 32) + sum.low as u64
}

// The digest of bytes from the start.
pub fn digest_of(bytes: &[u8]) -> u64
    ensures { Digests bytes.now result }
{
    digest_on(BASIS, bytes)
}
