// Two slices compared.
ghost use Rattle.std.specs.Prelude.{◌≡◌};
ghost use Rattle.octets.specs.Lists.{same};

// Whether the slices hold the same bytes.
#[tactic(auto, using(crate::proofs::Same::same_pointwise))]
pub fn same_bytes(a: &[u8], b: &[u8]) -> bool
    ensures { result ≡ same a.now b.now }
{
    a == b
}
