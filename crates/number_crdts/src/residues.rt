//! Arithmetic modulo a number of 64 bits, where 0 stands for 2^64.
ghost use Rattle.std.specs.Prelude.{◌≡◌, ◌↔◌, ◌<◌, IsTrue};
ghost use Rattle.number_crdts.specs.Number.{modulus_of, product_mod, sum_mod};

/// What residues are below.
fn size(modulus: u64) -> u128
    ensures { result ≡ modulus_of modulus }
{
    if modulus == 0 {
        1 << 64
    } else {
        u128::from(modulus)
    }
}

/// Whether the number is a residue.
pub(crate) fn is_residue(modulus: u64, x: u64) -> bool
    ensures { IsTrue result ↔ x < modulus_of modulus }
{
    modulus == 0 || x < modulus
}

/// The residue of the sum.
pub(crate) fn sum(modulus: u64, x: u64, y: u64) -> u64
    ensures { result ≡ sum_mod modulus x y }
{
    let total = u128::from(x) + u128::from(y);
    (total % size(modulus)) as u64
}

/// The residue of the product.
pub(crate) fn product(modulus: u64, x: u64, y: u64) -> u64
    ensures { result ≡ product_mod modulus x y }
{
    let total = u128::from(x) * u128::from(y);
    (total % size(modulus)) as u64
}
