// A finite field on the codes 0 to Q - 1, its laws, and powers.
#![tactic(auto)]

ghost use Rattle.std.specs.Prelude.{◌≡◌, ℕ, ◌+◌, ◌-◌, ◌<◌, ◌≤◌, nat_lt};
ghost use Rattle.field.specs.Algebra.{Algebra, Lawful, inverse, ops, power as power_of};

// Whoever implements it proves the laws; whoever is generic over it may use them.
pub trait Field {
    ghost algebra: { Algebra };

    ghost Q: { ℕ };

    // How many codes there are.
    const Q: u8;

    fn add(a: u8, b: u8) -> u8
        ensures { result ≡ algebra.plus a b };

    fn neg(a: u8) -> u8
        ensures { result ≡ algebra.minus a };

    fn mul(a: u8, b: u8) -> u8
        ensures { result ≡ algebra.times a b };

    // The only code whose product with `a` is 1.
    fn inv(a: u8) -> Option<u8>
        ensures { result ≡ inverse algebra a }
    {
        (1..Self::Q).find(|b| Self::mul(a, *b) == 1)
    }

    ghost lawful: { Lawful algebra };

    ghost sized: { Q ≡ algebra.size };
}

// x times itself, n times: 1 where n is 0.
pub fn power<F: Field>(x: u8, n: usize) -> u8
    ensures { result ≡ power_of (ops F.algebra) x n }
{
    let mut product = 1;
    for _k in 0..n {
        product = F::mul(product, x);
    }
    product
}
