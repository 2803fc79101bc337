// FNV-1a of 64 bits, and the tag of an identity and a value.

#![tactic(auto)]

ghost use Rattle.std.specs.Prelude.{◌≡◌, ◌*◌, ◌%◌, ◌^◌, [], ◌∷◌, slice_index};
ghost use Rattle.fnv.specs.Fnv.{mixed, fnv_from, fnv1a, little, tag_of};

#[repr(C)]
#[derive(Clone, Copy, PartialEq, Eq)]
pub struct Tag(pub u64);

// The prime is 2^40 + 2^8 + 2^7 + 2^5 + 2^4 + 2 + 1. A shift drops what passes bit 63.
pub fn times_prime(x: u64) -> u64
    ensures { result ≡ (x * 1099511628211) % 2 ^ 64 }
{
    let a = (x << 40).wrapping_add(x << 8);
    let b = (x << 7).wrapping_add(x << 5);
    let c = (x << 4).wrapping_add(x << 1);
    a.wrapping_add(b).wrapping_add(c.wrapping_add(x))
}

// One byte taken in.
#[tactic(auto, unfolding(crate::specs::Fnv::mixed))]
fn mix(h: u64, b: u8) -> u64
    ensures { result ≡ mixed h b }
{
    times_prime(h ^ (b as u64))
}

// Every byte of s taken in, in order.
#[tactic(auto, using(crate::proofs::Append::fnv_step), unfolding(crate::specs::Fnv::fnv_from))]
fn fold(h: u64, s: &[u8]) -> u64
    ensures { result ≡ fnv_from h s.now }
{
    let mut x = h;
    for b in s {
        x = mix(x, *b);
    }
    x
}

#[tactic(auto, unfolding(crate::specs::Fnv::fnv1a))]
pub fn hash(s: &[u8]) -> u64
    ensures { result ≡ fnv1a s.now }
{
    fold(14695981039346656037, s)
}

// The 8 bytes of x, lowest first. By shifts: to_le_bytes divides, as the compiler reads it, and the soundness test must not
// (request P4).
fn low_bytes(x: u64) -> [u8; 8]
    ensures { result ≡ little 8 x }
{
    [
        (x & 255) as u8,
        ((x >> 8) & 255) as u8,
        ((x >> 16) & 255) as u8,
        ((x >> 24) & 255) as u8,
        ((x >> 32) & 255) as u8,
        ((x >> 40) & 255) as u8,
        ((x >> 48) & 255) as u8,
        ((x >> 56) & 255) as u8,
    ]
}

// The hash of an identity alone, with which each of its tags begins.
fn hash_identity(identity: u64) -> u64
    ensures { result ≡ fnv1a (little 8 identity) }
{
    hash(&low_bytes(identity))
}

// The tag of a value that an identity logs.
#[tactic(auto, using(crate::proofs::Append::tag_folded))]
pub fn tag_of(identity: u64, value: &[u8]) -> Tag
    ensures { result ≡ tag_of identity value.now }
{
    Tag(fold(hash_identity(identity), value))
}

// Every byte of two slices taken in, side by side as far as both go: one hash need not wait for the other.
fn fold_two(h: [u64; 2], a: &[u8], b: &[u8]) -> [u64; 2]
    ensures { result
        ≡ fnv_from (slice_index h 0) a.now
        ∷ fnv_from (slice_index h 1) b.now
        ∷ [] }
{
    let m = a.len().min(b.len());
    let [mut w, mut x] = h;
    for i in 0..m {
        w = mix(w, a[i]);
        x = mix(x, b[i]);
    }
    [fold(w, &a[m..]), fold(x, &b[m..])]
}

// Every byte of four slices taken in, side by side as far as all four go, and then by twos. Not one function with the one above
// over N slices: the prover does not cover an array of references whose length is a const parameter.
fn fold_four(h: [u64; 4], a: &[u8], b: &[u8], c: &[u8], d: &[u8]) -> [u64; 4]
    ensures { result
        ≡ fnv_from (slice_index h 0) a.now
        ∷ fnv_from (slice_index h 1) b.now
        ∷ fnv_from (slice_index h 2) c.now
        ∷ fnv_from (slice_index h 3) d.now
        ∷ [] }
{
    let m = a.len().min(b.len()).min(c.len()).min(d.len());
    let [mut w, mut x, mut y, mut z] = h;
    for i in 0..m {
        w = mix(w, a[i]);
        x = mix(x, b[i]);
        y = mix(y, c[i]);
        z = mix(z, d[i]);
    }
    let [w, x] = fold_two([w, x], &a[m..], &b[m..]);
    let [y, z] = fold_two([y, z], &c[m..], &d[m..]);
    [w, x, y, z]
}

// The tags of four values, each with the identity that logs it.
#[tactic(auto, using(crate::proofs::Append::tag_folded))]
pub fn four_tags(identities: [u64; 4], a: &[u8], b: &[u8], c: &[u8], d: &[u8]) -> [u64; 4]
    ensures { result
        ≡ (tag_of (slice_index identities 0) a.now).0
        ∷ (tag_of (slice_index identities 1) b.now).0
        ∷ (tag_of (slice_index identities 2) c.now).0
        ∷ (tag_of (slice_index identities 3) d.now).0
        ∷ [] }
{
    let [p, q, r, s] = identities;
    let h = [
        hash_identity(p),
        hash_identity(q),
        hash_identity(r),
        hash_identity(s),
    ];
    fold_four(h, a, b, c, d)
}
